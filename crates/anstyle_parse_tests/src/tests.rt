//! Worked rows for the table, the decoder, parameters and parsers, and readers and writers that fail.
mod accumulators;
mod adapters;
mod buffered;
mod checkpoints;
mod engine;
mod failing;
mod lines;
mod names;
mod parameters;
mod parsers;
mod states;
