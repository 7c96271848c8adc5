use c_lexer::*;
use c_syntax_written::Pos;

#[test]
fn a_text_is_cut_or_refused(rt: HostRuntime) {
    assert_eq!(rt; cut_or_uncut(0, b"int a; /* */ \"b\\n\""), None);
    let at = Pos {
        file: 0,
        line: 1,
        col: 5,
    };
    assert_eq!(rt;
        cut_or_uncut(0, b"a \"b\\q\""),
        Some((at, Reason::BadEscape))
    );
}
