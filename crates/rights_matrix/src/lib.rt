// The rights of up to sixteen domains as sixteen rows of sixteen bytes, by value (document 02 (l)): row h has what the domain h
// holds, and place g of it the rights on g. The public functions are total: they accept arbitrary words as a table.
#![tactic(auto, unfolding(rights_matrix_theory::specs::Rows::held_in, rights_matrix_theory::specs::Rows::with_held, rights_matrix_theory::specs::Rows::has_rights))]

ghost use Rattle.std.specs.Prelude.{◌≡◌, ℕ, List, cond, ◌%◌, ◌≤◌, length};
ghost use Rattle.machine.specs.Below.{words_below};
ghost use Rattle.machine.specs.Word.{word};
ghost use Rattle.rights_matrix_theory.specs.Rows.{held_in, with_held, row_of, rows_of, stored_rows, has_rights};

use format::tables::{MOST_DOMAINS, NO_RIGHT};
use rights::Rights;
use std::marker::Model;
use table_layout::rights_at;

// Returns whether there are at most sixteen domains and words enough for their rights.
fn has_rights(n: u32, size: usize) -> bool
    ensures { result ≡ has_rights n size }
{
    let count = n as usize;
    n <= MOST_DOMAINS && count * count < size
}

// Returns the row of one holder's rights words.
fn load_row(words: &[u32]) -> [u8; 16]
    requires { length words.now ≤ 16 }
    ensures { result ≡ row_of words.now }
{
    let mut row = [0; 16];
    for (g, word) in words.iter().enumerate() {
        row[g] = (word % 256) as u8;
    }
    row
}

// The rows, which a contract sees as a list of lists.
#[derive(Drop)]
pub struct RightsMatrix {
    rows: [[u8; 16]; 16],
}

impl Model for RightsMatrix {
    ghost Value = { List (List ℕ) };

    ghost view = { λ matrix. matrix.rows };
}

impl RightsMatrix {
    // Returns the rows of a table of n domains. They hold no right where n is over sixteen or the table lacks rights words.
    pub fn load(table: &[u32], n: u32) -> RightsMatrix
        ensures { result ≡ rows_of (cond (has_rights n (length table.now)) n 0) table.now }
    {
        let mut rows = [[0; 16]; 16];
        if has_rights(n, table.len()) {
            for h in 0..n {
                let start = rights_at(n, h, 0);
                let end = start + n as usize;
                rows[h as usize] = load_row(&table[start..end]);
            }
        }
        RightsMatrix { rows }
    }

    // Stores the rows to a table of n domains. The table stays as it is where n is over sixteen or it lacks rights words.
    pub fn store(&self, n: u32, table: &mut [u32])
        ensures { table.new
            ≡ cond (has_rights n (length table.old)) (stored_rows n self.now table.old) table.old }
    {
        if !has_rights(n, table.len()) {
            return;
        }
        for h in 0..n {
            let from = rights_at(n, h, 0);
            let to = from + n as usize;
            self.store_row(h, &mut table[from..to]);
        }
    }

    // Stores a row to its holder's rights words.
    fn store_row(&self, holder: u32, words: &mut [u32])
        requires { length words.old ≤ 16 }
        ensures { words.new
            ≡ words_below (length words.old) (λ g. word 2 (held_in self.now holder g)) }
    {
        let h = (holder % 16) as usize;
        for (g, word) in words.iter_mut().enumerate() {
            *word = NO_RIGHT + u32::from(self.rows[h][g]);
        }
    }

    // Returns the rights of a holder on a target.
    pub fn held(&self, holder: u32, target: u32) -> Rights
        ensures { result.bits ≡ held_in self.now holder target }
    {
        let h = (holder % 16) as usize;
        let g = (target % 16) as usize;
        let bits = u32::from(self.rows[h][g]);
        Rights { bits }
    }

    // Sets the rights of a holder on a target.
    pub fn put(&mut self, holder: u32, target: u32, rights: u32)
        ensures { self.new ≡ with_held self.old holder target (rights % 256) }
    {
        let h = (holder % 16) as usize;
        let g = (target % 16) as usize;
        self.rows[h][g] = (rights % 256) as u8;
    }
}
