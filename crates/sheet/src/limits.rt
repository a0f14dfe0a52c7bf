// Document 01's limits, each by one name.

pub const TABLES: usize = 8;

pub const COLUMNS: usize = 8;

pub const CONDITIONS: usize = 16;

pub const LISTED: usize = 16;
// rows of a side table or of the list, and of a base table
pub const ROOM: usize = 4096;

pub const ROWS: usize = 65535;
// a place for each column, or for each table, of each table
pub const PLACES: usize = TABLES * COLUMNS;
// the parts of a store: a part for each table, and the list's; a count for each stands before them
pub const PARTS: usize = TABLES + 1;
// the words of the longest sheet: its counts, widths, edges, conditions, listed columns and rooms
pub const SHEET_WORDS: usize = 4 + TABLES + 4 * (TABLES - 1) + 4 * CONDITIONS + 2 * LISTED + PARTS;
