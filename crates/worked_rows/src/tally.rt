//! How many rows were run, and the line of each.

use crate::problem::Problem;

/// How many rows were run, and how many of them were as wanted.
#[derive(Clone, Copy)]
pub struct Tally {
    pub rows: u64,
    pub fine: u64,
}

impl Tally {
    /// No row.
    pub fn new() -> Tally {
        Tally { rows: 0, fine: 0 }
    }

    /// Counts one run of a row.
    pub fn count(&mut self, is_fine: bool) {
        self.rows = self.rows.saturating_add(1);
        if is_fine {
            self.fine = self.fine.saturating_add(1);
        }
    }

    /// Adds the runs of a row to the others, and prints the line of the row.
    pub fn close(&mut self, rt: &HostRuntime, title: &str, row: Tally) -> Result<(), Problem> {
        if row.rows == row.fine {
            if row.rows == 1 {
                println!(rt; "{title}: as wanted")?;
            } else {
                println!(rt; "{title}: {} as wanted", row.rows)?;
            }
        } else {
            println!(rt; "{title}: {} of {} as wanted", row.fine, row.rows)?;
        }
        self.rows = self.rows.saturating_add(row.rows);
        self.fine = self.fine.saturating_add(row.fine);
        Ok(())
    }
}
