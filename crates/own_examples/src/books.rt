//! Texts of books: read, asked, written and refused.
use own_book::book::{Book, read_book};
use own_book::fault::BookFault;
use own_book::writing::{put_line, write_book};
use std::alloc::Global;
use std::process::Abort;

/// The echo wave over one link, whose answers are in lines 1 to 6.
const ECHO: &str = "own 1 = own 1 echo explore() back()\n\
open 1 5:1-2 = asleep=yes;parent=-\n\
open 2 5:1-2 = asleep=yes;parent=-\n\
wake 1 asleep=yes;parent=- = asleep=no;parent=- done 0>explore\n\
take 2 0 explore asleep=yes;parent=- = asleep=no;parent=0 done 0>back\n\
take 1 0 back asleep=no;parent=- = asleep=no;parent=- done\n";

fn book(rt: &impl Abort, alloc: Global, text: &str) -> Book {
    read_book(alloc, text.as_bytes()).ok().expect(rt, "a book")
}

#[test]
fn a_book_is_read_asked_and_written(rt: HostRuntime) {
    let alloc = rt.alloc();
    let book = book(&rt, alloc, ECHO);
    assert_eq!(rt; book.len(), 6);
    assert!(rt; book.answer(b"open 2 5:1-2") == Some(b"asleep=yes;parent=-".as_slice()));
    assert!(rt;
        book.answer(b"take 1 0 back asleep=no;parent=-")
            == Some(b"asleep=no;parent=- done".as_slice())
    );
    assert!(rt; book.answer(b"open 3").is_none());
    assert!(rt; book.answer(b"open 2 5:1-2 ").is_none());
    assert!(rt;
        book.entry(1)
            == Some((
                b"open 1 5:1-2".as_slice(),
                b"asleep=yes;parent=-".as_slice()
            ))
    );
    assert!(rt; book.entry(6).is_none());
    let written = write_book(alloc, &book).expect(&rt, "memory for a text");
    assert_eq!(rt; written.as_slice(), ECHO.as_bytes());
}

#[test]
fn a_line_that_says_nothing_new_is_read(rt: HostRuntime) {
    let alloc = rt.alloc();
    let book = book(
        &rt,
        alloc,
        "open 2 = b=2\nopen 1 = a=1\nopen 2 = b=2\nopen 1 = a=1",
    );
    assert_eq!(rt; book.len(), 2);
    let written = write_book(alloc, &book).expect(&rt, "memory for a text");
    assert_eq!(rt;
        written.as_slice(),
        b"open 2 = b=2\nopen 1 = a=1\n".as_slice()
    );
}

#[test]
fn a_line_is_written(rt: HostRuntime) {
    let mut text = Vec::new(rt.alloc());
    put_line(&mut text, b"open 1", b"a=1").expect(&rt, "memory for a line");
    put_line(&mut text, b"open 2", b"").expect(&rt, "memory for a line");
    assert_eq!(rt; text.as_slice(), b"open 1 = a=1\nopen 2 = \n".as_slice());
}

/// Texts, their faults, and what these say.
const FAULTS: [(&str, BookFault, &str); 14] = [
    (
        "\n",
        BookFault::BadLine(1),
        "line 1: not a question with an answer",
    ),
    (
        "open 1 = a=1\n\n",
        BookFault::BadLine(2),
        "line 2: not a question with an answer",
    ),
    (
        "open 1 = a=1\r\n",
        BookFault::BadLine(1),
        "line 1: not a question with an answer",
    ),
    (
        "end = a=1",
        BookFault::BadLine(1),
        "line 1: not a question with an answer",
    ),
    (
        "open 1 =a=1",
        BookFault::BadLine(1),
        "line 1: not a question with an answer",
    ),
    (
        "open 1 = asleep",
        BookFault::BadLine(1),
        "line 1: not a question with an answer",
    ),
    (
        "wake 1 a=1 = a=1 wait",
        BookFault::BadLine(1),
        "line 1: not a question with an answer",
    ),
    // a port that the node's program counted one too low
    (
        "take 4 2 token(1) least=1 = least=1 done -1>token(1)",
        BookFault::BadLine(1),
        "line 1: not a question with an answer",
    ),
    (
        "open x = a=1",
        BookFault::Number(1),
        "line 1: number missing or out of range",
    ),
    (
        "open 1 = a=1\ntake 1 4294967296 m a=1 = a=1 done",
        BookFault::Number(2),
        "line 2: number missing or out of range",
    ),
    // the number stands before the state, and the question before the answer
    (
        "wake 01 a = a",
        BookFault::Number(1),
        "line 1: number missing or out of range",
    ),
    (
        "open 1 = a=1\nopen 2 = a=1\nopen 1 = a=2\nopen x = a=1",
        BookFault::Wavers { first: 1, line: 3 },
        "line 3: another answer than in line 1",
    ),
    (
        "open 1 = a=1\nopen 1 = a=1\nopen 1 = a=2",
        BookFault::Wavers { first: 1, line: 3 },
        "line 3: another answer than in line 1",
    ),
    // the first faulty line decides
    (
        "open x = a=1\nend\nopen 1 = a=1\nopen 1 = a=2",
        BookFault::Number(1),
        "line 1: number missing or out of range",
    ),
];

#[test]
fn texts_are_refused_by_their_first_fault(rt: HostRuntime) {
    let alloc = rt.alloc();
    for (text, fault, words) in &FAULTS {
        let found = read_book(alloc, text.as_bytes()).err();
        assert!(rt; found == Some(*fault), "{text}");
        let told = format!(in alloc; "{fault}").expect(&rt, "memory for words");
        assert_eq!(rt; told.as_str(), *words);
    }
}

/// `open 1 = a=`, and as many letters as make a line of so many bytes.
fn long_line(rt: &impl Abort, alloc: Global, bytes: usize) -> Vec<u8> {
    let mut line = Vec::from_slice(alloc, b"open 1 = a=").expect(rt, "memory for a line");
    for _ in 11..bytes {
        line.push(b'b').expect(rt, "memory for a letter");
    }
    line
}

#[test]
fn a_line_may_be_a_million_bytes_long(rt: HostRuntime) {
    let alloc = rt.alloc();
    let longest = long_line(&rt, alloc, 1_048_576);
    assert!(rt; read_book(alloc, &longest).is_ok());
    let longer = long_line(&rt, alloc, 1_048_577);
    assert!(rt; read_book(alloc, &longer).err() == Some(BookFault::TooLong(1)));
}

/// Where memory is refused, a book isn't read or written, and else it is: nothing comes between.
#[test]
fn memory_is_refused_or_the_book_is_whole(rt: HostRuntime) {
    let alloc = rt.alloc();
    match read_book(alloc, ECHO.as_bytes()) {
        Ok(book) => {
            assert_eq!(rt; book.len(), 6);
            if let Ok(written) = write_book(alloc, &book) {
                assert_eq!(rt; written.as_slice(), ECHO.as_bytes());
            }
        }
        Err(fault) => assert!(rt; fault == BookFault::Memory),
    }
}
