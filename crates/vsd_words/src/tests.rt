//! Tests of what no clause says.
use super::*;

const LOW: Handle = Handle {
    row: 1,
    generation: 1,
};

const TOP: Handle = Handle {
    row: 32767,
    generation: u32::MAX,
};

#[test]
fn packs_at_the_ends_of_each_range(rt: HostRuntime) {
    for (handle, word) in [(LOW, 32_769), (TOP, 140_737_488_355_327)] {
        assert_eq!(rt; handle.pack(), word);
        assert_eq!(rt; Handle::unpack(word), Some(handle));
    }
    assert_eq!(rt; Handle::unpack(140_737_488_355_328), None);

    for (cell, word) in [
        (CellWord::Lookup, 0),
        (CellWord::Resolve, 1),
        (CellWord::Dispatch(0), 2),
        (CellWord::Dispatch(1023), 1025),
    ] {
        assert_eq!(rt; cell.pack(), word);
        assert_eq!(rt; CellWord::unpack(word), Some(cell));
    }
    assert_eq!(rt; CellWord::unpack(1026), None);
}

#[test]
fn packs_flags_apart(rt: HostRuntime) {
    for (generation, number, immortal, live, word) in [
        (0, 0, false, false, 0),
        (2, 3, false, true, 524_301),
        (1, 0, true, false, 262_146),
        (u32::MAX, 65535, true, true, 1_125_899_906_842_623),
    ] {
        let unpacked = HandleWord {
            generation,
            number,
            immortal,
            live,
        };
        assert_eq!(rt; unpacked.pack(), word);
        assert_eq!(rt; HandleWord::unpack(word), Some(unpacked));
    }
    assert_eq!(rt; HandleWord::unpack(1_125_899_906_842_624), None);

    for (target, yes, word) in [(LOW, true, 65_539), (TOP, false, 281_474_976_710_654)] {
        let unpacked = CastWord { target, yes };
        assert_eq!(rt; unpacked.pack(), word);
        assert_eq!(rt; CastWord::unpack(word), Some(unpacked));
    }
    assert_eq!(rt; CastWord::unpack(281_474_976_710_656), None);
}

#[test]
fn hashes_by_the_formulas(rt: HostRuntime) {
    let far = Handle {
        row: 5,
        generation: 7,
    };
    assert_eq!(rt; bucket_of(3, far, 1), 0);
    assert_eq!(rt; bucket_of(3, far, 256), 36);
    assert_eq!(rt; bucket_of(65535, TOP, 1024), 582);
    let first = Handle {
        row: 0,
        generation: 1,
    };
    assert_eq!(rt; home_of(first, LOW, 128), 79);
    assert_eq!(rt; home_of(LOW, first, 128), 115);
    let below_top = Handle {
        row: 32766,
        generation: u32::MAX,
    };
    assert_eq!(rt; home_of(TOP, below_top, 4096), 880);
}
