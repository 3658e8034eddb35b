//! The library as any crate sees it, by its public calls and by `parts`: the worked examples,
//! proved callers, generated images, broken files, readers, writers and memory that fail, and the
//! standard library's readers and writers.

mod any_row;
mod broken;
mod called_again;
mod callers;
mod calls;
mod choices;
mod chosen_channels;
mod chunks;
mod copied;
mod copies;
mod decoder;
mod definitions;
mod differences;
mod encoder;
mod equations;
mod errors;
mod exact;
mod facts;
mod faults;
mod frames;
mod generated;
mod memory;
mod packs;
mod pixel;
mod pixel_readers;
mod pixel_writer;
mod reader;
mod readers_to_writers;
mod rectangles;
mod refusals;
mod row_indexes;
mod runs;
mod sheets;
mod stacks;
mod std_streams;
mod strips;
pub mod support;
mod turned;
mod types;
mod uploads;
mod vectors;
mod writers;
mod written_lists;
mod written_rows;
