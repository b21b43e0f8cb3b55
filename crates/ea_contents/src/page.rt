//! How words are kept by pages.

/// The words of a page: words 0 to 4095 are the first one, and so on.
pub const PAGE_WORDS: usize = 4096;
