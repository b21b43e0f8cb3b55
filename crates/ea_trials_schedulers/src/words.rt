//! Nodes, owner words and their numbers.
use ea_machine::{Node, OwnerWord};
use ea_model::Spot;
use ea_word::{decode, decode_node, encode, encode_node};

fn block(name: u32, carrier: u32, offset: u32) -> Node {
    Node::Block {
        name,
        spot: Spot { carrier, offset },
    }
}

fn carrier(number: u32) -> Node {
    Node::Carrier { number }
}

#[test]
fn each_node_has_its_number(rt: HostRuntime) {
    for (number, node) in [
        (2, block(1, 1, 0)),
        (6, block(2, 1, 0)),
        (4_194_306, block(1, 2, 0)),
        (274_877_906_946, block(1, 1, 2)),
        (1_099_511_627_786, block(3, 1, 8)),
        (9_223_371_779_153_592_318, block(262_144, 4096, 67_108_862)),
        // The greatest of a run, and the greatest that has room.
        (
            9_223_372_036_854_775_806,
            block(1_048_576, 65_536, 67_108_862),
        ),
        (3, carrier(1)),
        (4099, carrier(1025)),
        (16_383, carrier(4096)),
        (262_143, carrier(65_536)),
    ] {
        match decode_node(number) {
            Some(decoded) => {
                assert_eq!(rt; decoded, node, "at {number}");
                assert_eq!(rt; encode_node(decoded), number, "at {number}");
            }
            None => assert!(rt; false, "no node has {number}"),
        }
    }
}

#[test]
fn other_numbers_are_no_nodes(rt: HostRuntime) {
    for number in [
        // The words of an empty queue and of an oldest node, and others of their kinds.
        0,
        1,
        4,
        1_099_511_627_785,
        // A carrier whose number has no room, and one with bits of a block.
        262_147,
        1_099_511_627_787,
        // The bit that is always 0.
        9_223_372_036_854_775_810,
        9_223_372_036_854_775_811,
        18_446_744_073_709_551_615,
    ] {
        assert_eq!(rt; decode_node(number), None, "at {number}");
    }
}

fn employed(instance: u32) -> OwnerWord {
    OwnerWord::Employed { instance }
}

fn pooled(instance: u32, largest: u32) -> OwnerWord {
    OwnerWord::Pooled { instance, largest }
}

fn busy(instance: u32) -> OwnerWord {
    OwnerWord::Busy { instance }
}

fn returning(instance: u32) -> OwnerWord {
    OwnerWord::Returning { instance }
}

#[test]
fn each_owner_word_has_its_number(rt: HostRuntime) {
    for (number, word) in [
        (0, OwnerWord::Absent),
        (1, employed(1)),
        (9, employed(2)),
        // The greatest of a run, and the greatest that has room.
        (505, employed(64)),
        (8185, employed(1024)),
        (2, pooled(1, 0)),
        (8194, pooled(1, 2)),
        (134_127_626, pooled(2, 32_746)),
        (4_191_498, pooled(674, 1022)),
        (17_592_186_044_410, pooled(1024, 4_294_967_294)),
        (3, busy(1)),
        (19, busy(3)),
        (8187, busy(1024)),
        (4, returning(1)),
        (508, returning(64)),
        (8188, returning(1024)),
    ] {
        match decode(number) {
            Some(decoded) => {
                assert_eq!(rt; decoded, word, "at {number}");
                assert_eq!(rt; encode(decoded), number, "at {number}");
            }
            None => assert!(rt; false, "no owner word has {number}"),
        }
    }
}

#[test]
fn other_numbers_are_no_owner_words(rt: HostRuntime) {
    for number in [
        // States that there aren't.
        5,
        6,
        7,
        13,
        8191,
        // An instance where no carrier is.
        8,
        8184,
        // A gap of what isn't pooled.
        8192,
        8193,
        8195,
        8196,
        // A gap of 2^31 pairs, and the bits above.
        17_592_186_044_418,
        35_184_372_088_832,
        35_184_372_088_833,
        35_184_372_088_834,
        9_223_372_036_854_775_810,
        18_446_744_073_709_551_615,
    ] {
        assert_eq!(rt; decode(number), None, "at {number}");
    }
}
