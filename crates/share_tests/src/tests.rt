//! Tests of evaluation, key generation, the sketch, the cache and made-up workloads.
//! By topic.

mod cache_threads;
mod caches;
mod evaluation;
mod generation;
mod kept;
mod pairs;
mod sketches;
mod workloads;
