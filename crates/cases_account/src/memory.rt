// The memory of a line. All of it is on the program's stack, of which systems give 8 MiB: so a line has
// room for one account of 1,000 rows over 1,000 columns with fill, which takes some 4,800,000 bytes.

// The bytes of the longest line, and one more, by which a longer one is known.
pub const LINES: usize = 5000001;

// The most elements of a list.
pub const LONG: usize = 180000;

// The most elements of dense memory, which is lent.
pub const PLACES: usize = 2000;

// The numbers of a line: 680,000 in lists, and three that stand alone.
pub const NUMBERS: usize = 680003;

// The pointers of a line.
pub const POINTERS: usize = 8000;
