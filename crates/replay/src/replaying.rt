// Playing a list of calls, one a line, with an answer line for each.
ghost use Rattle.std.specs.Prelude.{◌≡◌, ◌<◌, ◌≤◌, ◌||◌, length, map, drop, take, true, MatchOption, IfSome, IfOk, IfErr};
ghost use Rattle.std.specs.Io.KnownBytes.{Appends};
ghost use Rattle.session.specs.Sessions.{KeepsPlaces};
ghost use Rattle.protocol.specs.Commands.{command, words_of};
ghost use Rattle.protocol.specs.Reading.{read_words};
ghost use Rattle.protocol.specs.Said.{said, answer_line};
ghost use Rattle.replay.specs.Playing.{is_head, Played};
ghost use Rattle.replay.specs.Lists.{is_passed_over, Stays, Renews, PlaysLines, PlaysAll, Writes, GoesOnAnew, Replays};

use crate::playing::play;
use clauses::clause::Clause;
use lines::line::Line;
use protocol::answer::Answer;
use protocol::call::Call;
use protocol::reading::read;
use protocol::telling::tell;
use session::session::Session;
use std::alloc::{AllocError, Global};
use std::io;
use std::io::{Read, Write};

// Bytes of a list.
pub const MOST_INPUT: usize = 16_777_216;

// Answers a call; before a session was made, only `head`. For want of memory it
// is not played, and the session is as it was.
fn answer(
    alloc: Global,
    session: &mut Session<'_>,
    made: bool,
    call: &Call,
) -> Result<Answer, AllocError>
    ensures plays { IfOk result (λ answer. Played (made || is_head (command call.now))
        session.old (command call.now) (said answer) session.new) }
    ensures keeps { KeepsPlaces session.old session.new }
    ensures kept { IfErr result (λ _. session.new ≡ session.old) }
{
    if made || matches!(call, Call::Head(_)) {
        play(alloc, session, call)
    } else {
        Ok(Answer::Error)
    }
}

// A book of so many places.
fn book(alloc: Global, places: usize) -> Result<Vec<Line>, AllocError>
    ensures places { IfOk result (λ book. length book.items ≡ places) }
{
    vec![in alloc; Line::given(Clause { pos: 0, neg: 0 }); places]
}

fn is_passed_over(line: &str) -> bool
    ensures value { result ≡ is_passed_over line.now }
{
    line.is_empty() || line.starts_with('#')
}

fn write_answer<W: Write>(alloc: Global, answer: &Answer, writer: &mut W) -> io::Result<()>
    ensures written { IfOk result (λ _. Appends (W.contents writer.old) (W.contents writer.new)
        (answer_line answer.now)) }
{
    let line = tell(alloc, answer)?;
    writer.write_all(line.as_bytes())
}

// Plays a line that is not passed over: its answer, and another session's book,
// where it makes one.
fn play_line(
    alloc: Global,
    line: &str,
    session: &mut Session<'_>,
    made: bool,
) -> (Answer, Option<Vec<Line>>)
    ensures answered { MatchOption result.1
        (Stays made session.old (read_words (words_of line.now)) (said result.0) session.new)
        (λ book. Renews (read_words (words_of line.now)) (said result.0) (length book.items)) }
{
    match read(alloc, line) {
        Ok(Some(Call::New(places))) => match book(alloc, places) {
            Ok(book) => (Answer::Done, Some(book)),
            Err(_) => (Answer::Error, None),
        },
        Ok(Some(call)) => {
            let played = answer(alloc, session, made, &call);
            (played.unwrap_or(Answer::Error), None)
        }
        Ok(None) | Err(_) => (Answer::Error, None),
    }
}

// Plays lines in one session, up to the end or to a line that makes another;
// then how many were played, and the other's book.
fn play_lines<W: Write>(
    alloc: Global,
    lines: &[&str],
    session: &mut Session<'_>,
    made: bool,
    writer: &mut W,
) -> io::Result<Option<(usize, Vec<Line>)>>
    ensures plays { IfOk result (λ ended. let all = map (λ l. l.now) lines.now in
        Writes (W.contents writer.old) (W.contents writer.new) (λ out. MatchOption ended
        (PlaysLines all made session.old out)
        (λ e. GoesOnAnew (PlaysLines all made session.old) out (drop e.0 all) true
        (length e.1.items)))) }
    ensures some { IfOk result (λ ended. IfSome ended (λ e. 0 < e.0)) }
    ensures within { IfOk result (λ ended. IfSome ended (λ e. e.0 ≤ length lines.now)) }
{
    for i in 0..lines.len() {
        let line = lines[i];
        if is_passed_over(line) {
            continue;
        }
        let (answer, next) = play_line(alloc, line, session, made);
        write_answer(alloc, &answer, writer)?;
        if let Some(book) = next {
            return Ok(Some((i + 1, book)));
        }
    }
    Ok(None)
}

// Plays all lines: one session after another.
fn play_all<W: Write>(alloc: Global, lines: &[&str], writer: &mut W) -> io::Result<()>
    ensures plays { IfOk result (λ _. Writes (W.contents writer.old) (W.contents writer.new)
        (PlaysAll (map (λ l. l.now) lines.now))) }
{
    let mut book: Vec<Line> = Vec::new(alloc);
    let mut made = false;
    let mut at: usize = 0;
    // Each turn but the last comes past a line.
    loop {
        let mut session = Session::new(&mut book);
        let rest = &lines[at..];
        let Some((played, next)) = play_lines(alloc, rest, &mut session, made, writer)? else {
            return Ok(());
        };
        at += played;
        made = true;
        book = next;
    }
}

// Reads one byte more than is taken, so that a longer list shows. The cast is
// exact: 16,777,216 fits.
fn read_text<R: Read + Drop>(alloc: Global, reader: R) -> io::Result<Vec<u8>>
    ensures text { IfOk result (λ text. IfSome (R.remaining reader)
        (λ input. text.items ≡ take 16777217 input)) }
{
    let mut text = Vec::new(alloc);
    reader.take(MOST_INPUT as u64 + 1).read_to_end(&mut text)?;
    Ok(text)
}

// Plays the list that a text is. A list that is too long is not played, and is
// answered by one line.
fn play_text<W: Write>(alloc: Global, text: &[u8], writer: &mut W) -> io::Result<()>
    ensures replays { IfOk result (λ _. Writes (W.contents writer.old) (W.contents writer.new)
        (Replays text.now)) }
{
    if text.len() > MOST_INPUT {
        return write_answer(alloc, &Answer::Error, writer);
    }
    let text = String::from_utf8_lossy(alloc, text)?;
    let lines: Vec<&str> = text.as_str().split('\n').collect(alloc)?;
    play_all(alloc, lines.as_slice(), writer)
}

// Plays the list that a reader has.
pub fn replay<R: Read + Drop, W: Write>(alloc: Global, reader: R, writer: &mut W) -> io::Result<()>
    ensures replays { IfOk result (λ _. IfSome (R.remaining reader)
        (λ input. Writes (W.contents writer.old) (W.contents writer.new) (Replays input))) }
{
    let text = read_text(alloc, reader)?;
    play_text(alloc, text.as_slice(), writer)
}
