// With six roots, what a 1 at a position adds to a layer's syndrome; with fewer it is the lowest bits of that. With m = 3 there are seven positions.
pub const COLUMNS_3: [u16; 15] = [9, 26, 44, 35, 62, 23, 53, 0, 0, 0, 0, 0, 0, 0, 0];

pub const COLUMNS_4: [u16; 15] = [
    273, 642, 964, 424, 755, 790, 396, 715, 933, 506, 535, 910, 463, 685, 1017,
];

// Where a syndrome has m bits, the leader of each coset, by its number, bit i at position i: the zero word, and the words of weight 1.
pub const SINGLES_3: [u16; 8] = [0, 1, 2, 8, 4, 64, 16, 32];

pub const SINGLES_4: [u16; 16] = [
    0, 1, 2, 16, 4, 256, 32, 1024, 8, 16384, 512, 128, 64, 8192, 2048, 4096,
];

// For each m and each greater number q of a syndrome's bits, words as numbers, bit i at position i: the word 0 from position q on with each syndrome of a
// single bit, and the BCH word with each single 1 from position q on.
pub const HEADS_3_6: [u16; 6] = [23, 46, 35, 22, 58, 49];

pub const ROWS_3_6: [u16; 1] = [127];

pub const HEADS_4_8: [u16; 8] = [198, 93, 186, 165, 199, 242, 225, 95];

pub const ROWS_4_8: [u16; 7] = [465, 627, 1254, 2077, 4154, 8308, 16616];

pub const HEADS_4_10: [u16; 10] = [693, 93, 186, 372, 278, 242, 835, 556, 930, 627];

pub const ROWS_4_10: [u16; 5] = [1335, 2670, 4587, 9174, 17051];
