//! Lines with their answers, after git-fast-import(1) and the limits of the program.
use bf_forms::{
    DataLine, FirstLine, ModifyLine, data_line, delete_all_of, encoding_of, first_line, ident_of,
    is_ref, mark_of, modify_line, text_after,
};
use bf_grammar::{ContentForm, Limit, Limits, StreamFault};
use bf_oid::{Mode, Oid};

const LINE: u64 = 7;

const SYNTAX: Option<StreamFault> = Some(StreamFault::Syntax { line: LINE });

const UNSUPPORTED: Option<StreamFault> = Some(StreamFault::Unsupported { line: LINE });

const TOO_LARGE: Option<StreamFault> = Some(StreamFault::TooLarge { what: Limit::Data });

#[derive(Clone, Copy)]
enum Part {
    First,
    Mark,
    Committer,
    Encoding,
    Data,
    Modify,
    Delete,
    DeleteAll,
}

fn refusal_of(part: Part, text: &[u8]) -> Option<StreamFault> {
    match part {
        Part::First => first_line(LINE, text).err(),
        Part::Mark => mark_of(LINE, text).err(),
        Part::Committer => ident_of(LINE, b"committer", text).err(),
        Part::Encoding => encoding_of(LINE, text).err(),
        Part::Data => data_line(Limits::standard(), LINE, text).err(),
        Part::Modify => modify_line(LINE, text).err(),
        Part::Delete => text_after(LINE, b"D", text).err(),
        Part::DeleteAll => delete_all_of(LINE, text).err(),
    }
}

// Lines, each with its refusal.
const LINES: [(Part, &str, Option<StreamFault>); 49] = [
    (Part::First, "done", None),
    (Part::First, "done x", SYNTAX),
    (Part::First, "blob x", SYNTAX),
    (Part::First, "commit", SYNTAX),
    (Part::First, "commit refs/heads/a b", SYNTAX),
    (Part::First, "commit refs/heads/a..b", SYNTAX),
    (Part::First, "progress", SYNTAX),
    (Part::First, "progress ", None),
    (Part::First, "feature", SYNTAX),
    (Part::First, "feature notes", UNSUPPORTED),
    (Part::First, "feature ", UNSUPPORTED),
    (Part::First, "C a b", UNSUPPORTED),
    (Part::First, "checkpoint", UNSUPPORTED),
    (Part::First, "checkpoints", SYNTAX),
    (Part::First, "from :1", SYNTAX),
    (Part::Mark, "mark :1", None),
    (Part::Mark, "mark :0", SYNTAX),
    (Part::Mark, "mark 1", SYNTAX),
    (Part::Mark, "mark :18446744073709551616", SYNTAX),
    (Part::Mark, "mark :000000000000000000001", SYNTAX),
    (Part::Committer, "committer T <t@e> 0 +0000", None),
    (
        Part::Committer,
        "committer <> 999999999999999999 -1400",
        None,
    ),
    (Part::Committer, "committer T 0 +0000", SYNTAX),
    (Part::Committer, "committer T<t@e> 0 +0000", SYNTAX),
    (Part::Committer, "committer T <t<e> 0 +0000", SYNTAX),
    (Part::Committer, "committer T <t\0e> 0 +0000", SYNTAX),
    (Part::Committer, "committer T <t@e>0 +0000", SYNTAX),
    (Part::Committer, "committer T <t@e> now", UNSUPPORTED),
    (
        Part::Committer,
        "committer T <t@e> 1000000000000000000 +0000",
        UNSUPPORTED,
    ),
    (Part::Committer, "committer T <t@e> 0 +1401", UNSUPPORTED),
    (Part::Committer, "committer T <t@e> 0 0000", UNSUPPORTED),
    (Part::Encoding, "encoding latin-1", None),
    (Part::Encoding, "encoding ", SYNTAX),
    (Part::Data, "data 67108864", None),
    (Part::Data, "data 67108865", TOO_LARGE),
    (Part::Data, "data 18446744073709551616", SYNTAX),
    (Part::Data, "data", SYNTAX),
    (Part::Data, "data <<", SYNTAX),
    (Part::Data, "data <<E", None),
    (Part::Modify, "M 040000", UNSUPPORTED),
    (Part::Modify, "M 100600 inline a", SYNTAX),
    (Part::Modify, "M 100644 x", SYNTAX),
    (Part::Modify, "M 100644 :0 a", SYNTAX),
    (Part::Modify, "M 644 inline ", None),
    (Part::Modify, "M 644 inline", SYNTAX),
    (Part::Delete, "D ", None),
    (Part::Delete, "D", SYNTAX),
    (Part::DeleteAll, "deleteall", None),
    (Part::DeleteAll, "deleteall ", SYNTAX),
];

#[test]
fn refuses_what_is_in_no_form(rt: HostRuntime) {
    for (part, text, wanted) in LINES {
        assert_eq!(rt; refusal_of(part, text.as_bytes()), wanted, "at {text}");
    }
}

#[test]
fn reads_the_values_in_lines(rt: HostRuntime) {
    for (text, read) in [
        ("blob", FirstLine::Blob),
        (
            "commit refs/heads/main",
            FirstLine::Commit(b"refs/heads/main"),
        ),
        ("tag v1.0", FirstLine::Tag(b"v1.0")),
        ("reset refs/heads/x", FirstLine::Reset(b"refs/heads/x")),
        ("option git quiet", FirstLine::Feature),
        ("feature done", FirstLine::FeatureDone),
        ("feature date-format=raw", FirstLine::Feature),
    ] {
        assert_eq!(rt; first_line(LINE, text.as_bytes()), Ok(read), "at {text}");
    }
    assert_eq!(rt; mark_of(LINE, b"mark :18446744073709551615"), Ok(u64::MAX));
    assert_eq!(rt;
        data_line(Limits::standard(), LINE, b"data 0010"),
        Ok(DataLine::Counted(10))
    );
    assert_eq!(rt;
        data_line(Limits::standard(), LINE, b"data <<END"),
        Ok(DataLine::Delimited(b"END"))
    );
    assert!(rt;
        is_ref(b"refs/heads/main") && !is_ref(b"a.b..c") && !is_ref(b"a\\b") && !is_ref(b"")
    );
}

#[test]
fn reads_modes_and_contents(rt: HostRuntime) {
    let digits = b"M 160000 56B29d9c130e2ec4b506a48d4fe5a18d92d8d1e3 a";
    let name = Oid([
        0x56, 0xb2, 0x9d, 0x9c, 0x13, 0x0e, 0x2e, 0xc4, 0xb5, 0x06, 0xa4, 0x8d, 0x4f, 0xe5, 0xa1,
        0x8d, 0x92, 0xd8, 0xd1, 0xe3,
    ]);
    match modify_line(LINE, digits) {
        Ok(
            ModifyLine {
                mode,
                content: ContentForm::Name(read),
                path,
            },
        ) => {
            assert_eq!(rt; mode, Mode::Module);
            assert_eq!(rt; read, name);
            assert_eq!(rt; path, b"a".as_slice());
        }
        _ => assert!(rt; false, "no name"),
    }
    match modify_line(LINE, b"M 755 :9 a b") {
        Ok(
            ModifyLine {
                mode,
                content: ContentForm::Mark(mark),
                path,
            },
        ) => {
            assert_eq!(rt; mode, Mode::Exec);
            assert_eq!(rt; mark, 9);
            assert_eq!(rt; path, b"a b".as_slice());
        }
        _ => assert!(rt; false, "no mark"),
    }
}
