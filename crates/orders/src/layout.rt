// The layout of the array that the best choice is made from: specs/Layout.antt, name for name.

pub const FIELD_CELLS: usize = 34;

pub const FIRST_COLUMN: usize = 1;

pub const ROW_FIELD: usize = 34;

pub const FIRST_ROW: usize = 35;

pub const RANK_FIELD: usize = 68;

pub const FIRST_RANK: usize = 69;

pub const AT_RANK_FIELD: usize = 102;

pub const TOP_FIELD: usize = 136;

pub const FIRST_TOP: usize = 137;

pub const HIGH_FIELD: usize = 170;

pub const FIRST_HIGH: usize = 171;

pub const SUM_CELLS: usize = 36;

pub const TRIANGULAR_FIELD: usize = 204;

pub const TETRAHEDRAL_FIELD: usize = 240;

pub const WEIGHT_FIELD: usize = 69;

pub const FIRST_WEIGHT: usize = 70;

pub const ALLOWED_FIELD: usize = 412;

pub const FIRST_ALLOWED: usize = 413;

pub const POSITION_FIELD: usize = 446;

pub const FIRST_POSITION: usize = 447;

pub const COUNT_CELL: usize = 480;

pub const WIDTH_CELL: usize = 481;

pub const HEIGHT_CELL: usize = 482;

pub const ARRAY_CELLS: usize = 483;
