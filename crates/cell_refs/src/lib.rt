//! Cells of a workbook's grid, areas of them, and the written references that name them.
#![tactic(auto)]

mod areas;
mod grid;
mod handle_reading;
mod handle_texts;
mod handles;
mod laws;
mod memory;
mod reading;
mod references;
mod spelling;
mod steps;
mod writing;

pub use areas::{Area, Cells};
pub use grid::{COLUMNS, Cell, ROWS, SHEETS};
pub use handle_reading::read_handle;
pub use handle_texts::write_handle;
pub use handles::Handle;
pub use laws::{
    an_area_lists_its_cells, each_cell_has_its_text, each_handle_has_its_text,
    reading_gives_what_stands, written_text_reads_back,
};
pub use memory::Memory;
pub use reading::read_ref;
pub use references::RefText;
pub use steps::Steps;
pub use writing::{write_cell, write_ref};

#[cfg(test)]
mod tests;
