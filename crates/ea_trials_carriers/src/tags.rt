//! Headers and their words.
use ea_tags::Header;
use ea_tags::header::{MAX_SIZE, decode, encode};

#[test]
fn each_header_has_its_word(rt: HostRuntime) {
    for (word, size, this_free, prev_free, last) in [
        // A block after a block, a last gap after a block, and blocks after a gap.
        (112, 14, false, false, false),
        (261_973, 32_746, true, false, true),
        (114, 14, false, true, false),
        (50, 6, false, true, false),
        // The least, each bit, and the greatest.
        (0, 0, false, false, false),
        (1, 0, true, false, false),
        (2, 0, false, true, false),
        (4, 0, false, false, true),
        (8, 1, false, false, false),
        (4_294_967_295, 536_870_911, true, true, true),
    ] {
        let header = Header {
            size,
            this_free,
            prev_free,
            last,
        };
        assert!(rt; size <= MAX_SIZE);
        assert!(rt; encode(header) == word);
        assert!(rt; decode(word) == header);
    }
}
