//! Transcripts of replies and strays, as one text and through a buffer, and writers that fail.
use crate::fakes::NarrowWriter;
use bs_board::{Id, Refusal, Reply, Word};
use bs_json::Stray;
use bs_samples::{holds, same};
use bs_transcript::{
    Section, Transcript, TranscriptFault, WriteFault, text, write_all_of, write_transcript,
};
use std::alloc::{AllocError, Global};
use std::io::ErrorKind;
use std::test::Fail;
use std::thread::Threads;

const TEXT: &str = r#"{"charge":32,"do":"free","game":"a","seq":1}
{"game":"a","no":"G4","seq":2,"why":"over"}
{"board":null,"charge":32,"final":true,"game":"a"}
{"game":"b","no":"G2","seq":1,"why":"none"}
{"board":null,"charge":0,"final":true,"game":"b"}
{"board":null,"charge":0,"final":true,"game":"c"}
{"line":3,"no":"L1","why":"json"}
{"line":7,"no":"L3","why":"long"}
"#;

const STRAYS: [(u64, Stray); 2] = [(3, Stray::Json), (7, Stray::Long)];

/// A finished game: its replies and its charge.
#[derive(Drop)]
struct Ended {
    name: Id,
    replies: Vec<Reply>,
    charge: u32,
}

fn ended_game(
    alloc: Global,
    name: &str,
    replies: Vec<Reply>,
    charge: u32,
) -> Result<Ended, AllocError> {
    Ok(Ended {
        name: Id::from_str(alloc, name)?,
        replies,
        charge,
    })
}

// Makes three games, the last of them without commands.
fn three_games(alloc: Global) -> Result<Vec<Ended>, AllocError> {
    let first = vec![in alloc; Reply::Plain(Word::Free, 32), Reply::Refused(Refusal::Over)]?;
    let second = vec![in alloc; Reply::Refused(Refusal::NoGame)]?;
    let mut games = Vec::new(alloc);
    games.push(ended_game(alloc, "a", first, 32)?)?;
    games.push(ended_game(alloc, "b", second, 0)?)?;
    games.push(ended_game(alloc, "c", Vec::new(alloc), 0)?)?;
    Ok(games)
}

fn sections_of<'g>(alloc: Global, games: &'g [Ended]) -> Result<Vec<Section<'g>>, AllocError> {
    let mut sections = Vec::new(alloc);
    for game in games {
        sections.push(Section {
            name: &game.name,
            replies: game.replies.as_slice(),
            board: None,
            charge: game.charge,
        })?;
    }
    Ok(sections)
}

// The sections in their order, then two strays.
#[test]
fn sections_and_strays(rt: HostRuntime) -> Result<(), Fail> {
    let alloc = rt.alloc();
    let games = three_games(alloc)?;
    let sections = sections_of(alloc, games.as_slice())?;
    let whole = text(alloc, sections.as_slice(), &STRAYS)?;
    same("a text", whole.as_slice(), TEXT.as_bytes())?;
    same("no section", text(alloc, &[], &[])?.len(), 0)
}

// Writes the transcript of these sections and the two strays to a vector, with so many threads.
fn written<R: Threads + Sync>(
    rt: &R,
    alloc: Global,
    sections: &[Section<'_>],
    threads: usize,
) -> Result<Vec<u8>, AllocError> {
    let transcript = Transcript {
        sections,
        strays: &STRAYS,
    };
    let mut output = Vec::new(alloc);
    match write_transcript(rt, alloc, transcript, threads, &mut output) {
        Ok(()) => Ok(output),
        Err(_) => Err(AllocError),
    }
}

// What is written is the same text; if there is no line, nothing is written.
#[test]
fn sections_and_strays_are_written(rt: HostRuntime) -> Result<(), Fail> {
    let alloc = rt.alloc();
    let games = three_games(alloc)?;
    let sections = sections_of(alloc, games.as_slice())?;
    let whole = written(&rt, alloc, sections.as_slice(), 2)?;
    same("what is written", whole.as_slice(), TEXT.as_bytes())?;
    let mut output = Vec::new(alloc);
    let empty = Transcript {
        sections: &[],
        strays: &[],
    };
    let told = write_transcript(&rt, alloc, empty, 1, &mut output);
    same("no line is written", told.is_ok(), true)?;
    same("of no line", output.len(), 0)
}

fn many_replies(alloc: Global, count: u32) -> Result<Vec<Reply>, AllocError> {
    let mut replies = Vec::new(alloc);
    for seq in 0..count {
        replies.push(if seq % 3 == 0 {
            Reply::Plain(Word::Free, seq)
        } else {
            Reply::Refused(Refusal::NoGame)
        })?;
    }
    Ok(replies)
}

// The lines of the first 3,000 of those replies, of a game named b.
fn many_lines(alloc: Global) -> Result<String, AllocError> {
    let mut lines = String::new(alloc);
    for seq in 0..3000u32 {
        let number = seq + 1;
        let line = if seq % 3 == 0 {
            format!(in alloc;
                "{{\"charge\":{seq},\"do\":\"free\",\"game\":\"b\",\"seq\":{number}}}\n"
            )?
        } else {
            format!(in alloc;
                "{{\"game\":\"b\",\"no\":\"G2\",\"seq\":{number},\"why\":\"none\"}}\n"
            )?
        };
        lines.push_str(line.as_str())?;
    }
    Ok(lines)
}

// The transcript of a game with those replies, which is longer than the buffer: 141,000 bytes.
fn long_text(alloc: Global) -> Result<String, AllocError> {
    let mut text = many_lines(alloc)?;
    text.push_str("{\"board\":null,\"charge\":7,\"final\":true,\"game\":\"b\"}\n")?;
    text.push_str("{\"line\":3,\"no\":\"L1\",\"why\":\"json\"}\n")?;
    text.push_str("{\"line\":7,\"no\":\"L3\",\"why\":\"long\"}\n")?;
    Ok(text)
}

// A text that is longer than the buffer is written whole.
#[test]
fn a_long_transcript_is_written(rt: HostRuntime) -> Result<(), Fail> {
    let alloc = rt.alloc();
    let games = vec![in alloc; ended_game(alloc, "b", many_replies(alloc, 3000)?, 7)?]?;
    let sections = sections_of(alloc, games.as_slice())?;
    let wanted = long_text(alloc)?;
    holds("longer than the buffer", wanted.len() > 131_072)?;
    let whole = written(&rt, alloc, sections.as_slice(), 1)?;
    same("a long text", whole.as_slice(), wanted.as_bytes())
}

/// The number of bytes that a writer takes, and how it fails after that.
#[derive(Clone, Copy)]
struct Room {
    bytes: usize,
    failure: Option<ErrorKind>,
}

// Compares the fault, and what a writer of that room took of a text.
fn is_cut_off(
    told: Result<(), WriteFault>,
    taken: &[u8],
    text: &[u8],
    room: Room,
) -> Result<(), Fail> {
    let fault = told.err().map(|fault| fault.written);
    let wanted = if room.bytes < text.len() {
        Some(room.bytes)
    } else {
        None
    };
    same("what the fault counts", fault, wanted)?;
    same("what was taken", taken, &text[..room.bytes.min(text.len())])
}

fn is_text_cut_off(alloc: Global, room: Room) -> Result<(), Fail> {
    let mut output = NarrowWriter::new(alloc, room.bytes, 3, room.failure);
    let told = write_all_of(TEXT.as_bytes(), &mut output);
    is_cut_off(told, output.taken.as_slice(), TEXT.as_bytes(), room)
}

const FAILURES: [Option<ErrorKind>; 3] = [
    Some(ErrorKind::BrokenPipe),
    Some(ErrorKind::Interrupted),
    None,
];

// If a writer fails anywhere, the fault counts the bytes that it took, which are a prefix of the
// text.
#[test]
fn writers_that_fail_have_a_prefix(rt: HostRuntime) -> Result<(), Fail> {
    for bytes in 0..TEXT.len() + 1 {
        for failure in FAILURES {
            is_text_cut_off(rt.alloc(), Room { bytes, failure })?;
        }
    }
    Ok(())
}

// The fault of the writer. Running out of memory is another error.
fn as_write_fault(told: Result<(), TranscriptFault>) -> Result<Result<(), WriteFault>, AllocError> {
    match told {
        Ok(()) => Ok(Ok(())),
        Err(TranscriptFault::Write(fault)) => Ok(Err(fault)),
        Err(TranscriptFault::Memory) => Err(AllocError),
    }
}

/// A transcript, its text, the number of threads that write it, the most bytes that the writer
/// takes at once, and the number of places at which it fails, 2 at least.
#[derive(Clone, Copy)]
struct Shown<'t> {
    sections: &'t [Section<'t>],
    whole: &'t [u8],
    threads: usize,
    most_at_once: usize,
    places: usize,
}

fn is_transcript_cut_off<R: Threads + Sync>(
    rt: &R,
    alloc: Global,
    shown: Shown<'_>,
    room: Room,
) -> Result<(), Fail> {
    let mut output = NarrowWriter::new(alloc, room.bytes, shown.most_at_once, room.failure);
    let transcript = Transcript {
        sections: shown.sections,
        strays: &STRAYS,
    };
    let told = write_transcript(rt, alloc, transcript, shown.threads, &mut output);
    is_cut_off(
        as_write_fault(told)?,
        output.taken.as_slice(),
        shown.whole,
        room,
    )
}

// Writes the transcript to writers that fail at so many places, the last of which is near its end.
fn is_cut_off_anywhere<R: Threads + Sync>(
    rt: &R,
    alloc: Global,
    shown: Shown<'_>,
) -> Result<(), Fail> {
    let between = shown.places.saturating_sub(1).max(1);
    for place in 0..shown.places {
        let room = Room {
            bytes: (shown.whole.len() / between).saturating_mul(place),
            failure: FAILURES[place % 3],
        };
        is_transcript_cut_off(rt, alloc, shown, room)?;
    }
    Ok(())
}

// The same for a whole transcript, which goes through a buffer: the fault counts the bytes that the
// writer took, a prefix of the text.
#[test]
fn transcripts_that_fail_have_a_prefix(rt: HostRuntime) -> Result<(), Fail> {
    let alloc = rt.alloc();
    let games = vec![in alloc; ended_game(alloc, "b", many_replies(alloc, 3000)?, 7)?]?;
    let sections = sections_of(alloc, games.as_slice())?;
    let whole = long_text(alloc)?;
    let shown = Shown {
        sections: sections.as_slice(),
        whole: whole.as_bytes(),
        threads: 1,
        most_at_once: 40,
        places: 20,
    };
    is_cut_off_anywhere(&rt, alloc, shown)
}

// A name of 400 bytes. A byte may take six in a line, so a line with it is bounded by some 2,650.
fn long_name(alloc: Global, letter: &str) -> Result<String, AllocError> {
    let mut name = String::new(alloc);
    for _ in 0..400 {
        name.push_str(letter)?;
    }
    Ok(name)
}

// Games whose lines have bounds of 12.7 MB together, enough for three rendering threads besides the
// writing one: some 4,800 lines of three games, and a fourth game without commands.
fn many_lines_of_games(alloc: Global) -> Result<Vec<Ended>, AllocError> {
    let mut games = Vec::new(alloc);
    for (letter, count) in [("a", 1600), ("b", 3199), ("c", 0), ("d", 1)] {
        let name = long_name(alloc, letter)?;
        games.push(ended_game(alloc, name.as_str(), many_replies(alloc, count)?, 7)?)?;
    }
    Ok(games)
}

// What several threads render is the text, however many they are.
#[test]
fn several_threads_render(rt: HostRuntime) -> Result<(), Fail> {
    let alloc = rt.alloc();
    let games = many_lines_of_games(alloc)?;
    let sections = sections_of(alloc, games.as_slice())?;
    let whole = text(alloc, sections.as_slice(), &STRAYS)?;
    for threads in 1..6 {
        let other = written(&rt, alloc, sections.as_slice(), threads)?;
        holds("the text", other.as_slice() == whole.as_slice())?;
    }
    Ok(())
}

// If the writer fails while other threads render, they end, and the fault counts the bytes that the
// writer took, a prefix of the text.
#[test]
fn writers_fail_while_threads_render(rt: HostRuntime) -> Result<(), Fail> {
    let alloc = rt.alloc();
    let games = many_lines_of_games(alloc)?;
    let sections = sections_of(alloc, games.as_slice())?;
    let whole = text(alloc, sections.as_slice(), &STRAYS)?;
    for threads in [2, 4] {
        let shown = Shown {
            sections: sections.as_slice(),
            whole: whole.as_slice(),
            threads,
            most_at_once: 4096,
            places: 6,
        };
        is_cut_off_anywhere(&rt, alloc, shown)?;
    }
    Ok(())
}
