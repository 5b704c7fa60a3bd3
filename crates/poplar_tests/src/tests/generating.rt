//! `gen` over strings files that are right or refused, and `eval` of the files that it makes.
//! The values of the made files are those of an independent implementation.

use super::{MASTER, evaluates, generates, shelf_of, words_of};
use poplar_top::poplar;
use shelf_io::{Call, FirmLink, FirmSink, MemoryShelf, OpenGate};
use std::alloc::{AllocError, Global};

const USAGE: &str = "usage: poplar eval, gen, run, find, make, upgrade\n";

// A width, the strings file and the two outputs, and the status and err that they are to give.
type Case = (
    &'static str,
    &'static str,
    &'static str,
    &'static str,
    u8,
    &'static str,
);

const CASES: [Case; 8] = [
    ("2", "three", "f0", "f1", 0, ""),
    ("1", "long", "f2", "f3", 11, "strings: line 1 is too long\n"),
    (
        "1",
        "zero",
        "f2",
        "f3",
        11,
        "strings: line 1 has a zero byte\n",
    ),
    (
        "32",
        "many",
        "f2",
        "f3",
        11,
        "strings: 16055 lines are too many\n",
    ),
    ("1", "none", "f2", "f3", 11, "strings: not there\n"),
    ("1", "long", "f2", "f2", 2, USAGE),
    ("33", "long", "f2", "f3", 2, USAGE),
    ("0", "long", "f2", "f3", 2, USAGE),
];

// A shelf with strings files, of which an append with this number fails.
fn strings(alloc: Global, number: u64) -> Result<MemoryShelf, AllocError> {
    let many = vec![in alloc; 10_u8; 16055]?;
    let files: [(&str, &[u8]); 6] = [
        ("one", b"a\n"),
        ("two", b"a\nb\n"),
        ("three", b"ab\nab\nac\n"),
        ("long", b"a\nab\n"),
        ("zero", &[0x61, 0x0a, 0, 0x0a]),
        ("many", many.as_slice()),
    ];
    let mut shelf = shelf_of(alloc, Call::Append, number)?;
    for (name, bytes) in files {
        shelf = shelf.with(name, bytes)?;
    }
    Ok(shelf)
}

// Whether a name holds so many bytes; 0 where it is not there.
fn has_size(shelf: &MemoryShelf, name: &str, size: usize) -> bool {
    match shelf.file(name) {
        Some(bytes) => bytes.len() == size,
        None => size == 0,
    }
}

#[test]
fn strings_files_of_every_kind(rt: HostRuntime) -> Result<(), AllocError> {
    let mut shelf = strings(rt.alloc(), 0)?;
    for (width, file, zero, one, status, lines) in CASES {
        let words = ["gen", "--width", width, "--master", MASTER, file, zero, one];
        assert!(rt; generates(rt.alloc(), &mut shelf, &words, status, lines)?);
    }
    assert!(rt;
        has_size(&shelf, "f0", 3368) && has_size(&shelf, "f1", 3368) && has_size(&shelf, "f2", 0)
    );
    Ok(())
}

#[test]
fn one_letter_has_its_values_on_both_sides(rt: HostRuntime) -> Result<(), AllocError> {
    let mut shelf = strings(rt.alloc(), 0)?;
    let words = [
        "gen", "--width", "1", "--master", MASTER, "--tag", "5", "one", "f0", "f1",
    ];
    assert!(rt; generates(rt.alloc(), &mut shelf, &words, 0, "")?);
    assert!(rt; has_size(&shelf, "f0", 608) && has_size(&shelf, "f1", 608));
    let cases = [
        (
            "0",
            "01100001",
            "f0",
            "00000000000000050000000000000000\t149767190873919528\t9674600108946861015\n",
        ),
        (
            "1",
            "01100001",
            "f1",
            "00000000000000050000000000000000\t18296976878540664794\t11097288878540873373\n",
        ),
        (
            "0",
            "0111",
            "f0",
            "00000000000000050000000000000000\t6428785760586991553\t14949809211850554446\n",
        ),
        (
            "1",
            "0111",
            "f1",
            "00000000000000050000000000000000\t12017958308827592768\t3496934857564029875\n",
        ),
    ];
    for (side, prefix, file, text) in cases {
        assert!(rt;
            evaluates(
                rt.alloc(),
                &mut shelf,
                &["eval", side, prefix, file],
                0,
                text,
                ""
            )?
        );
    }
    Ok(())
}

#[test]
fn an_append_that_fails(rt: HostRuntime) -> Result<(), AllocError> {
    let mut shelf = strings(rt.alloc(), 4)?;
    let words = ["gen", "--width", "1", "--master", MASTER, "two", "f0", "f1"];
    assert!(rt; generates(rt.alloc(), &mut shelf, &words, 6, "shelf fault\n")?);
    assert!(rt; has_size(&shelf, "f0", 608) && has_size(&shelf, "f1", 8));
    Ok(())
}

#[test]
fn the_program_takes_both_commands(rt: HostRuntime) -> Result<(), AllocError> {
    let alloc = rt.alloc();
    let mut shelf = strings(alloc, 0)?;
    let commands: [(&[&str], u8); 3] = [
        (
            &["gen", "--width", "1", "--master", MASTER, "one", "f0", "f1"],
            0,
        ),
        (&["eval", "1", "0", "f1"], 0),
        (&["make"], 2),
    ];
    for (list, status) in commands {
        let mut out = FirmSink::new(alloc);
        let mut err = FirmSink::new(alloc);
        let mut link = FirmLink::new(alloc);
        let words = words_of(alloc, list)?;
        let ended = poplar(
            &rt, alloc, &words, &mut shelf, &mut out, &mut err, &mut link, &OpenGate,
        );
        assert_eq!(rt; ended, status);
    }
    Ok(())
}
