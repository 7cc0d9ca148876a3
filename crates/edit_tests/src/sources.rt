//! Tests of sources.
mod addresses;
mod cached_answers;
mod calls;
mod index_texts;
mod published;
mod steps;
mod stores;
