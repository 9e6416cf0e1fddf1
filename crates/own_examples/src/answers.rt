//! Questions and answers, taken apart.
use own_book::answer::{Answer, next_sent, read_answer};
use own_book::asking::{put_take, put_wake};
use own_book::fault::LineFault;
use own_book::kind::{ArgumentType, next_kind, next_type};
use own_book::line::read_line;
use own_book::question::{Asked, asked_of};

#[test]
fn questions_say_what_they_ask_for(rt: HostRuntime) {
    assert_eq!(rt; asked_of(b"own 1"), Ok(Asked::Greeting));
    assert_eq!(rt; asked_of(b"open 2 1:1-2 4:2-3"), Ok(Asked::Opening));
    assert_eq!(rt; asked_of(b"wake 1 asleep=yes"), Ok(Asked::Wake));
    assert_eq!(rt;
        asked_of(b"take 2 0 test(1,1:1-2) level=0"),
        Ok(Asked::Take)
    );
    assert_eq!(rt;
        asked_of(b"take 2 0 test(1,1:1-2)"),
        Err(LineFault::BadLine)
    );
    assert_eq!(rt; asked_of(b"take 2 -1 test level=0"), Err(LineFault::Number));
}

#[test]
fn a_greeting_is_taken_apart(rt: HostRuntime) {
    let read = read_answer(Asked::Greeting, b"own 1 ghs accept() test(level,key?,12)");
    let Some(Answer::Greeting { name, kinds }) = read else {
        assert!(rt; false, "no greeting");
        return;
    };
    assert_eq!(rt; name, b"ghs".as_slice());
    let Some((accept, rest)) = next_kind(kinds) else {
        assert!(rt; false, "no first kind");
        return;
    };
    assert_eq!(rt; accept.name, b"accept".as_slice());
    assert!(rt; next_type(accept.types).is_none());
    let Some((test, rest)) = next_kind(rest) else {
        assert!(rt; false, "no second kind");
        return;
    };
    assert_eq!(rt; test.name, b"test".as_slice());
    assert!(rt; next_kind(rest).is_none());
    let Some((level, rest)) = next_type(test.types) else {
        assert!(rt; false, "no first type");
        return;
    };
    assert_eq!(rt; level, ArgumentType::Level);
    let Some((key, rest)) = next_type(rest) else {
        assert!(rt; false, "no second type");
        return;
    };
    assert_eq!(rt; key, ArgumentType::MaybeKey);
    let Some((wide, rest)) = next_type(rest) else {
        assert!(rt; false, "no third type");
        return;
    };
    assert_eq!(rt; wide, ArgumentType::Bits(12));
    assert!(rt; next_type(rest).is_none());
}

#[test]
fn a_reaction_is_taken_apart(rt: HostRuntime) {
    let read = read_answer(Asked::Take, b"level=0;name=- wait 0>accept 12>connect(0)");
    let Some(
        Answer::Reaction {
            state,
            waits,
            sends,
        },
    ) = read
    else {
        assert!(rt; false, "no reaction");
        return;
    };
    assert_eq!(rt; state, b"level=0;name=-".as_slice());
    assert!(rt; waits);
    let Some((first, rest)) = next_sent(sends) else {
        assert!(rt; false, "no first message");
        return;
    };
    assert_eq!(rt; first.port, 0);
    assert_eq!(rt; first.message, b"accept".as_slice());
    let Some((second, rest)) = next_sent(rest) else {
        assert!(rt; false, "no second message");
        return;
    };
    assert_eq!(rt; second.port, 12);
    assert_eq!(rt; second.message, b"connect(0)".as_slice());
    assert!(rt; next_sent(rest).is_none());
}

#[test]
fn questions_are_written(rt: HostRuntime) {
    let mut text = Vec::new(rt.alloc());
    put_wake(&mut text, 1, b"asleep=yes").expect(&rt, "memory for a question");
    assert_eq!(rt; text.as_slice(), b"wake 1 asleep=yes".as_slice());
    assert_eq!(rt; asked_of(&text), Ok(Asked::Wake));
    let mut text = Vec::new(rt.alloc());
    put_take(&mut text, 20, 0, b"test(1,1:1-2)", b"level=0").expect(&rt, "memory for a question");
    assert_eq!(rt;
        text.as_slice(),
        b"take 20 0 test(1,1:1-2) level=0".as_slice()
    );
    assert_eq!(rt; asked_of(&text), Ok(Asked::Take));
}

#[test]
fn a_state_has_no_blank(rt: HostRuntime) {
    assert!(rt; read_answer(Asked::Opening, b"asleep=yes;a=").is_some());
    assert!(rt; read_answer(Asked::Opening, b"asleep=yes a=1").is_none());
}

#[test]
fn a_line_is_cut_at_its_first_sign(rt: HostRuntime) {
    let Ok((question, answer)) = read_line(b"wake 1 a=b = ! x = y") else {
        assert!(rt; false, "no line");
        return;
    };
    assert_eq!(rt; question, b"wake 1 a=b".as_slice());
    assert_eq!(rt; answer, b"! x = y".as_slice());
}

#[test]
fn giving_up_answers_every_question(rt: HostRuntime) {
    for asked in &[Asked::Greeting, Asked::Opening, Asked::Wake, Asked::Take] {
        let read = read_answer(*asked, b"! no rule = none");
        assert!(rt; matches!(&read, Some(Answer::GivesUp(b"no rule = none"))));
    }
}
