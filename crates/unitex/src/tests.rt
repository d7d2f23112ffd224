//! What no row of `unitex_rows` shows: faults of the folder and of the sinks, files that are made,
//! and a second computation of the hits.

mod fakes;
mod made;
mod plain;
mod rows;
mod stops;
