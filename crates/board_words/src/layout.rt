// Where things stand in the words of a board: the one place of the code that knows it. The definitions are the ledger's.
ghost use Rattle.std.specs.Prelude.{◌≡◌, ◌≤◌};
ghost use Rattle.checks.specs.Largest.{largest, most_words};
ghost use Rattle.ledger.specs.Board.{row_length, row_start, value_start, board_length};
ghost use Rattle.board_words.specs.Rows.{rows_grid, turned_grid};

use matrix_echelon::Grid;

// The words of the header, and of the largest board.
pub const HEADER: usize = 4;

pub const LARGEST_BOARD: usize = 5124;

// Where the header's words stand: the modulus, the number of records, the count of rows, and how many values a row has.
pub const MODULUS: usize = 0;

pub const SIZE: usize = 1;

pub const COUNT: usize = 2;

pub const VALUES: usize = 3;

// What a board's header says: the modulus p, n records of s words, and k standing rows, each of n multipliers and s values.
#[derive(Clone, Copy)]
pub struct Header {
    pub p: u32,
    pub n: usize,
    pub s: usize,
    pub k: usize,
    pub ghost few_records: { n ≤ largest },
    pub ghost few_words: { s ≤ most_words },
}

impl Header {
    ghost use Rattle.ledger.specs.Board.{modulus_word, size_word, count_word, values_word};
    ghost use Rattle.board_words.specs.Tested.{HasHeader};

    // The header of the words, which have one.
    pub fn of(board: &[u32]) -> Header
        requires { HasHeader board.now }
        ensures modulus { result.p ≡ modulus_word board.now }
        ensures records { result.n ≡ size_word board.now }
        ensures words { result.s ≡ values_word board.now }
        ensures rows { result.k ≡ count_word board.now }
        ensures bound { result.k ≤ result.n }
    {
        Header {
            p: board[MODULUS],
            n: board[SIZE] as usize,
            s: board[VALUES] as usize,
            k: board[COUNT] as usize,
        }
    }

    // The words of a row: n multipliers and s values.
    pub fn row_length(self) -> usize
        ensures { result ≡ row_length self.n self.s }
    {
        self.n + self.s
    }

    // Where row i begins.
    pub fn row_start(self, i: usize) -> usize
        requires { i ≤ largest }
        ensures { result ≡ row_start self.n self.s i }
    {
        HEADER + i * self.row_length()
    }

    // Where the values of row i begin.
    pub fn value_start(self, i: usize) -> usize
        requires { i ≤ largest }
        ensures { result ≡ value_start self.n self.s i }
    {
        self.row_start(i) + self.n
    }

    // The multipliers of the standing rows, as a table that is read in place.
    pub fn rows(self) -> Grid
        ensures { result ≡ rows_grid self.n self.s self.k }
    {
        Grid {
            start: self.row_start(0),
            down: self.row_length(),
            along: 1,
            rows: self.k,
            columns: self.n,
        }
    }

    // The same turned: each row is a column.
    pub fn turned(self) -> Grid
        ensures { result ≡ turned_grid self.n self.s self.k }
    {
        Grid {
            start: self.row_start(0),
            down: 1,
            along: self.row_length(),
            rows: self.n,
            columns: self.k,
        }
    }
}

// The words of a board for n records of s words: n rows are all.
pub fn board_length(n: usize, s: usize) -> usize
    requires { (n ≤ largest) × (s ≤ most_words) }
    ensures { result ≡ board_length n s }
{
    HEADER + n * (n + s)
}
