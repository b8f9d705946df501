//! Each command through the top call, and words that are refused: a word is told by its index in the whole line.
use crate::devices::told;
use crate::line::{CERTIFICATE, EIGHT, FOUND, HOLDS, SEARCHED, SEARCHES, SECOND_REFUSED};
use bf_io::Bytes;
use bf_output::Status;
use std::process::Abort;
use std::test::Fail;

/// Words, the file that they may name, and the status and the text that are due.
#[derive(Clone, Copy)]
struct Row<'a> {
    words: &'a [&'a [u8]],
    file: &'a [u8],
    status: u8,
    text: &'a [u8],
}

/// Asserts that what a call told is due.
fn is_told(rt: &impl Abort, row: &Row<'_>, told: &(Status, Bytes)) {
    assert_eq!(rt; told.0.number(), row.status);
    assert_eq!(rt; told.1.as_slice(), row.text);
}

#[test]
fn each_command_is_carried_out(rt: HostRuntime) -> Result<(), Fail> {
    let rows = [
        Row {
            words: &[b"simulate", b"main", b"main~7", b"ggggbbbb"],
            file: b"",
            status: 0,
            text: FOUND,
        },
        Row {
            words: &[b"run", b"main", b"main~7", b"--", b"t"],
            file: b"",
            status: 0,
            text: FOUND,
        },
        Row {
            words: &[b"certify", b"simulate", b"main", b"main~7", b"ggggbbbb"],
            file: b"",
            status: 0,
            text: CERTIFICATE,
        },
        Row {
            words: &[b"certify", b"run", b"main", b"main~7", b"--", b"t"],
            file: b"",
            status: 0,
            text: CERTIFICATE,
        },
        Row {
            words: &[b"check", b"file"],
            file: CERTIFICATE,
            status: 0,
            text: HOLDS,
        },
        Row {
            words: &[b"check", b"file"],
            file: b"certificate 1\nend\n",
            status: 20,
            text: b"certificate fails at line 2\n",
        },
        Row {
            words: &[b"journal", b"run", b"main", b"main~7", b"--", b"t"],
            file: b"",
            status: 0,
            text: FOUND,
        },
        Row {
            words: &[b"many", b"4", b"file"],
            file: SEARCHES,
            status: 0,
            text: SEARCHED,
        },
        Row {
            words: &[b"many", b"1", b"file"],
            file: b"main main~7 ggggbbbb\nmain none g\n",
            status: 8,
            text: SECOND_REFUSED,
        },
        Row {
            words: &[b"many", b"64", b"file"],
            file: b"main main~7 ggggbbbb\nmain\n",
            status: 23,
            text: b"list refused at line 2\n",
        },
        Row {
            words: &[b"many", b"4", b"none"],
            file: SEARCHES,
            status: 16,
            text: b"no such file\n",
        },
        Row {
            words: &[b"serve"],
            file: b"",
            status: 0,
            text: b"ready 1 8\n",
        },
    ];
    for row in &rows {
        let told = told(&rt, row.words, EIGHT, row.file)?;
        is_told(&rt, row, &told);
    }
    Ok(())
}

#[test]
fn words_are_told_by_their_index(rt: HostRuntime) -> Result<(), Fail> {
    let rows = [
        Row {
            words: &[],
            file: b"",
            status: 1,
            text: b"usage fault at word 0\n",
        },
        Row {
            words: &[b"certify", b"next", b"main", b"main~7"],
            file: b"",
            status: 1,
            text: b"usage fault at word 1\n",
        },
        Row {
            words: &[b"certify", b"simulate", b"main", b"main~1", b"gx"],
            file: b"",
            status: 1,
            text: b"usage fault at word 4\n",
        },
        Row {
            words: &[
                b"certify", b"run", b"--leg", b"2", b"main", b"main~1", b"--", b"t",
            ],
            file: b"",
            status: 1,
            text: b"usage fault at word 2\n",
        },
        Row {
            words: &[b"certify", b"run", b"main", b"maim", b"--", b"t"],
            file: b"",
            status: 8,
            text: b"name refused at word 3: unknown\n",
        },
        Row {
            words: &[
                b"certify",
                b"simulate",
                b"--skip",
                b"--leg",
                b"main",
                b"main~1",
                b"g",
            ],
            file: b"",
            status: 8,
            text: b"name refused at word 3: unknown\n",
        },
        Row {
            words: &[b"check"],
            file: b"",
            status: 1,
            text: b"usage fault at word 1\n",
        },
        Row {
            words: &[b"check", b"file", b"file"],
            file: b"",
            status: 1,
            text: b"usage fault at word 2\n",
        },
        Row {
            words: &[b"checkout"],
            file: b"",
            status: 1,
            text: b"usage fault at word 1\n",
        },
        Row {
            words: &[b"checkout", b"simulate", b"main", b"main~7", b"g"],
            file: b"",
            status: 1,
            text: b"usage fault at word 1\n",
        },
        Row {
            words: &[b"checkout", b"run", b"--workers", b"65", b"main", b"main~7"],
            file: b"",
            status: 1,
            text: b"usage fault at word 3\n",
        },
        Row {
            words: &[b"checkout", b"run", b"main", b"maim", b"--", b"t"],
            file: b"",
            status: 8,
            text: b"name refused at word 3: unknown\n",
        },
        Row {
            words: &[b"journal", b"next", b"main", b"main~7"],
            file: b"",
            status: 1,
            text: b"usage fault at word 1\n",
        },
        Row {
            words: &[
                b"journal", b"run", b"--leg", b"0", b"main", b"main~7", b"--", b"t",
            ],
            file: b"",
            status: 1,
            text: b"usage fault at word 3\n",
        },
        Row {
            words: &[b"journal", b"run", b"maim", b"main~7", b"--", b"t"],
            file: b"",
            status: 8,
            text: b"name refused at word 2: unknown\n",
        },
        Row {
            words: &[b"many"],
            file: b"",
            status: 1,
            text: b"usage fault at word 1\n",
        },
        Row {
            words: &[b"many", b"65"],
            file: b"",
            status: 1,
            text: b"usage fault at word 1\n",
        },
        Row {
            words: &[b"many", b"4"],
            file: b"",
            status: 1,
            text: b"usage fault at word 2\n",
        },
        Row {
            words: &[b"many", b"4", b"file", b"file"],
            file: b"",
            status: 1,
            text: b"usage fault at word 3\n",
        },
        Row {
            words: &[b"serve", b"file"],
            file: b"",
            status: 1,
            text: b"usage fault at word 1\n",
        },
    ];
    for row in &rows {
        let told = told(&rt, row.words, EIGHT, row.file)?;
        is_told(&rt, row, &told);
    }
    Ok(())
}
