// What lines are taken, what they are read as, and what replies are printed, on examples.
use crate::lines::{Lines, whole_lines};
use crate::parse::parse;
use std::test::Fail;
use subject::answer::Answer;
use subject::call::Call;
use subject::denial::Denial;
use subject::plan::Plan;
use subject::refusal::Refusal;

// Good lines, and then such as are no calls.
const LINES: &[u8] = b"t 7 12\n\
s 007 999\n\
b\n\
l 47\n\
w\n\
n\n\
e\n\
\n\
B\n\
b \n\
t 7\n\
t 7  12\n\
l 0012\n\
l 7a\n\
w\r\n\
l";

#[test]
fn calls(rt: HostRuntime) -> Result<(), Fail> {
    let calls = [
        Some(Call::Try(7, 12)),
        Some(Call::Strike(7, 999)),
        Some(Call::Back),
        Some(Call::Look(47)),
        Some(Call::Begin),
        Some(Call::Next),
        Some(Call::End),
        None,
        None,
        None,
        None,
        None,
        None,
        None,
        None,
        None,
    ];
    let mut lines = Lines::new(LINES);
    for call in calls {
        let line = lines.next().ok_or("there are fewer lines than calls")?;
        assert_eq!(rt; parse(line), call);
    }
    assert!(rt; lines.next().is_none());
    Ok(())
}

#[test]
fn lines(rt: HostRuntime) {
    let mut empty = Lines::new(b"\n\n");
    assert!(rt; empty.next() == Some(b""));
    assert!(rt; empty.next() == Some(b""));
    assert!(rt; empty.next().is_none());
    let mut none = Lines::new(b"");
    assert!(rt; none.next().is_none());
    assert_eq!(rt; whole_lines(b"b\nl 1\nl"), 6);
}

#[test]
fn replies(rt: HostRuntime) -> Result<(), Fail> {
    let mut text = String::new(rt.alloc());
    let replies = [
        Ok(Answer::Count(120)),
        Ok(Answer::Options(5)),
        Ok(Answer::Plan(Plan::new([7; 48], 3))),
        Ok(Answer::NoPlan),
        Ok(Answer::Done),
        Err(Denial::Refused(Refusal::NotOpen)),
        Err(Denial::NotPossible),
    ];
    for reply in replies {
        match reply {
            Ok(answer) => writeln!(text, "{answer}")?,
            Err(denial) => writeln!(text, "{denial}")?,
        }
    }
    assert_eq!(rt;
        text.as_str(),
        "ok 120\nok 5\nplan 7 7 7\nnone\nok\nno 23\nno 41\n"
    );
    Ok(())
}
