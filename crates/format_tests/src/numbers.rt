// The expected bytes and seals are Python's, by int.to_bytes and hashlib.
use lean_bytes::{Cur, check, put_u64, put_words, seal, take_u64, take_words};

#[test]
fn numbers_stand_lowest_byte_first_at_their_places(rt: HostRuntime) {
    let mut one = [9; 12];
    put_u64(&mut one, 3, 72623859790382856);
    let mut two = [0; 16];
    put_words(&mut two, &[1, 18446744073709551614]);
    let mut words = [0; 2];
    take_words(&two, &mut words);
    assert!(rt;
        one == [9u8, 9, 9, 8, 7, 6, 5, 4, 3, 2, 1, 9]
            && take_u64(&one, 3) == 72623859790382856
            && two
                == [
                    1u8, 0, 0, 0, 0, 0, 0, 0, 254, 255, 255, 255, 255, 255, 255, 255
                ]
            && words == [1u64, 18446744073709551614]
    );
}

// What a reader's next call gives.
enum Take {
    Byte(Option<u8>),
    Short(Option<u32>),
    Word(Option<u64>),
    /// It takes none, and sees how many are left.
    Left(usize),
}

static READ: [u8; 15] = [7, 1, 40, 107, 238, 8, 7, 6, 5, 4, 3, 2, 1, 5, 6];

static TAKES: [Take; 9] = [
    Take::Byte(Some(7)),
    Take::Short(Some(4000000001)),
    Take::Word(Some(72623859790382856)),
    Take::Word(None),
    Take::Short(None),
    Take::Left(2),
    Take::Byte(Some(5)),
    Take::Byte(Some(6)),
    Take::Byte(None),
];

fn gives(reader: &mut Cur, take: &Take) -> bool {
    match take {
        Take::Byte(wanted) => reader.u8() == *wanted,
        Take::Short(wanted) => reader.u32() == *wanted,
        Take::Word(wanted) => reader.u64() == *wanted,
        Take::Left(wanted) => reader.rest().len() == *wanted,
    }
}

#[test]
fn a_reader_takes_numbers_off_its_bytes_and_then_none(rt: HostRuntime) {
    let mut reader = Cur::new(&READ);
    for (place, take) in TAKES.iter().enumerate() {
        assert!(rt; gives(&mut reader, take), "call {place}");
    }
}

// Sixteen bytes or so, and whether they are the seal of these bytes under this tag.
struct Sealing {
    name: &'static str,
    tag: &'static [u8; 8],
    bytes: &'static [u8],
    seal: &'static [u8],
    fits: bool,
}

static SEALS: [Sealing; 4] = [
    Sealing {
        name: "the first sixteen bytes of the digest of tag and bytes",
        tag: b"LEANLOGB",
        bytes: &[0, 1, 2, 3, 4, 5, 6, 7, 8, 9],
        seal: &[
            120, 221, 67, 203, 232, 58, 232, 60, 90, 222, 210, 99, 48, 175, 48, 68,
        ],
        fits: true,
    },
    Sealing {
        name: "one byte fewer",
        tag: b"LEANLOGB",
        bytes: &[0, 1, 2, 3, 4, 5, 6, 7, 8, 9],
        seal: &[
            120, 221, 67, 203, 232, 58, 232, 60, 90, 222, 210, 99, 48, 175, 48,
        ],
        fits: false,
    },
    Sealing {
        name: "another tag",
        tag: b"LEANPAGE",
        bytes: &[0, 1, 2, 3, 4, 5, 6, 7, 8, 9],
        seal: &[
            120, 221, 67, 203, 232, 58, 232, 60, 90, 222, 210, 99, 48, 175, 48, 68,
        ],
        fits: false,
    },
    Sealing {
        name: "other bytes",
        tag: b"LEANLOGB",
        bytes: &[1, 2, 3, 4, 5, 6, 7, 8, 9],
        seal: &[
            120, 221, 67, 203, 232, 58, 232, 60, 90, 222, 210, 99, 48, 175, 48, 68,
        ],
        fits: false,
    },
];

#[test]
fn a_seal_fits_its_tag_and_its_bytes_alone(rt: HostRuntime) {
    for row in &SEALS {
        let is_made = seal(row.tag, row.bytes).as_slice() == row.seal;
        let is_found = check(row.tag, row.bytes, row.seal);
        assert!(rt; is_made == row.fits && is_found == row.fits, "{}", row.name);
    }
}
