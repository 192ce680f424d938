//! The jobs: each makes documents, hands each to one public call, and takes a digest of what comes of it.

use crate::digest::Digest;
use crate::pieces::{PIECES, Writing};
use crate::random::Random;
use crate::recording::{Recording, put_frame};
use ansi_html::{Scheme, Styling, convert};
use ansi_screen::{Screen, Scrollable};
use ansi_strip::strip_inert;
use anstyle_parse::io::{Buffer, FromRead, FromWrite, Output, Source};
use event_pieces::{Event, feed};
use screen_draw::{Form, show_to_end, update_to_end};
use screen_html::{LinkMemory, convert_shown};
use std::alloc::{AllocError, Global};
use stream_state::StreamState;

/// What users wait for.
#[derive(Debug, Clone, Copy, PartialEq, Eq)]
pub enum Job {
    /// The plain text of a log.
    Strip,
    /// A log as HTML.
    Html,
    /// The calls of a log, as records, in pieces.
    Events,
    /// What a log with progress bars showed, as HTML.
    Shown,
    /// The screen of a full-screen program, and what updates a terminal to it after each read.
    Updates,
    /// The screen of an editor or a pager that moves its rows, and a drawing of it.
    Scroll,
    /// As `Updates`, where each read gives one frame, as many bytes as the program wrote at once.
    Frames,
}

/// Each of them.
pub const JOBS: [Job; 7] = [
    Job::Strip,
    Job::Html,
    Job::Events,
    Job::Shown,
    Job::Updates,
    Job::Scroll,
    Job::Frames,
];

/// The size of each screen.
const COLUMNS: usize = 120;

const ROWS: usize = 40;

/// How much the library is handed at once.
const PIECE: usize = 4096;

/// The records and the bytes of room for the calls of a piece: more than any takes.
const EVENTS: usize = 3 * PIECE;

const ROOM: usize = 16 * PIECE;

impl Job {
    /// Its name in the arguments.
    pub fn name(self) -> &'static str {
        match self {
            Job::Strip => "strip",
            Job::Html => "html",
            Job::Events => "events",
            Job::Shown => "shown",
            Job::Updates => "updates",
            Job::Scroll => "scroll",
            Job::Frames => "frames",
        }
    }

    /// How many pieces a document has: some 100 kB of them, or 120 frames.
    fn pieces(self) -> usize {
        match self {
            Job::Strip | Job::Html | Job::Events | Job::Shown => 1200,
            Job::Updates | Job::Scroll => 3000,
            Job::Frames => 120,
        }
    }

    /// Writes a piece of its streams.
    fn put_piece(self, random: &mut Random, writing: &mut Writing) -> Result<(), AllocError> {
        match self {
            Job::Strip | Job::Html | Job::Events => writing.put_log_line(random),
            Job::Shown => writing.put_progress(random),
            Job::Updates => writing.put_part_of_frame(random),
            Job::Scroll => writing.put_row_move(random),
            Job::Frames => writing.put_frame(random),
        }
    }

    /// Runs it on so many documents, each of another row of pieces, and answers the digest of what comes of them. `Err`
    /// means that memory is wanting.
    pub fn run(self, alloc: Global, seed: u32, documents: u32) -> Result<u64, AllocError> {
        let mut random = Random::new(seed);
        let pieces = self.all_pieces(alloc, &mut random)?;
        let mut digest = Digest::new();
        let mut document = Vec::new(alloc);
        for _ in 0..documents {
            document.clear();
            self.fill(pieces.as_slice(), &mut random, &mut document)?;
            self.run_once(alloc, document.as_slice(), &mut digest)?;
        }
        Ok(digest.sum())
    }

    /// The pieces of its documents.
    fn all_pieces(self, alloc: Global, random: &mut Random) -> Result<Vec<Writing>, AllocError> {
        let mut pieces = Vec::new(alloc);
        for _ in 0..PIECES {
            let mut writing = Writing::new(alloc);
            self.put_piece(random, &mut writing)?;
            pieces.push(writing).map_err(|_| AllocError)?;
        }
        Ok(pieces)
    }

    /// Adds pieces to a document.
    fn fill(
        self,
        pieces: &[Writing],
        random: &mut Random,
        document: &mut Vec<u8>,
    ) -> Result<(), AllocError> {
        for _ in 0..self.pieces() {
            if let Some(piece) = pieces.get(random.below(PIECES)) {
                match self {
                    Job::Frames => put_frame(document, piece.bytes.as_slice())?,
                    _ => document.extend_from_slice(piece.bytes.as_slice())?,
                }
            }
        }
        Ok(())
    }

    /// Hands a document to the call that it is for.
    fn run_once(
        self,
        alloc: Global,
        document: &[u8],
        digest: &mut Digest,
    ) -> Result<(), AllocError> {
        match self {
            Job::Strip => digest.bytes(stripped(alloc, document).as_slice()),
            Job::Html => digest.bytes(html(alloc, document).as_slice()),
            Job::Events => events(alloc, document, digest)?,
            Job::Shown => digest.bytes(shown(alloc, document)?.as_slice()),
            Job::Updates => digest.bytes(updates(alloc, &mut FromRead::new(document))?.as_slice()),
            Job::Scroll => digest.bytes(drawing(alloc, document)?.as_slice()),
            Job::Frames => digest.bytes(updates(alloc, &mut Recording::new(document))?.as_slice()),
        }
        Ok(())
    }
}

/// What is written to, in pieces as programs write.
fn paper(alloc: Global) -> Buffer<FromWrite<Vec<u8>>> {
    Buffer::new(FromWrite::new(Vec::new(alloc)))
}

fn stripped(alloc: Global, document: &[u8]) -> Vec<u8> {
    let writer = paper(alloc);
    let (writer, _) = strip_inert(&mut FromRead::new(document), writer);
    writer.into_inner().into_inner()
}

fn html(alloc: Global, document: &[u8]) -> Vec<u8> {
    let writer = paper(alloc);
    let styling = Styling::Inline(Scheme::Both);
    let (writer, _) = convert(styling, b"", &mut FromRead::new(document), writer, b"");
    writer.into_inner().into_inner()
}

fn shown(alloc: Global, document: &[u8]) -> Result<Vec<u8>, AllocError> {
    let screen = Scrollable::new(alloc, COLUMNS, ROWS)?;
    let links = LinkMemory::new(alloc)?;
    let writer = paper(alloc);
    let styling = Styling::Inline(Scheme::Both);
    let mut reader = FromRead::new(document);
    let (writer, _) = convert_shown(screen, links, styling, b"", &mut reader, writer, b"");
    Ok(writer.into_inner().into_inner())
}

fn updates<R: Source>(alloc: Global, reader: &mut R) -> Result<Vec<u8>, AllocError> {
    let mut screen = Screen::new(alloc, COLUMNS, ROWS)?;
    let mut wanted = Screen::new(alloc, COLUMNS, ROWS)?;
    let mut output = Output::new(paper(alloc));
    let _ = update_to_end(reader, &mut screen, &mut wanted, &mut output);
    let (writer, _) = output.finish();
    Ok(writer.into_inner().into_inner())
}

fn drawing(alloc: Global, document: &[u8]) -> Result<Vec<u8>, AllocError> {
    let mut screen = Screen::new(alloc, COLUMNS, ROWS)?;
    let mut output = Output::new(paper(alloc));
    let _ = show_to_end(
        &mut FromRead::new(document),
        &mut screen,
        Form::Drawing,
        &mut output,
    );
    let (writer, _) = output.finish();
    Ok(writer.into_inner().into_inner())
}

/// The records of a document that comes in pieces, and what they hold.
fn events(alloc: Global, document: &[u8], digest: &mut Digest) -> Result<(), AllocError> {
    let mut state = StreamState::new();
    let mut events = Vec::from_elem(alloc, no_event(), EVENTS)?;
    let mut room = Vec::from_elem(alloc, 0, ROOM)?;
    for piece in document.chunks(PIECE) {
        let (events, room) = (events.as_mut_slice(), room.as_mut_slice());
        if let Some(fed) = feed(&mut state, piece, events, room) {
            digest.number(fed.taken as u64);
            for event in events.iter().take(fed.written) {
                take_event(event, digest);
            }
            digest.bytes(room.get(..fed.used).unwrap_or(&[]));
        }
    }
    Ok(())
}

/// Takes what a record says.
fn take_event(event: &Event, digest: &mut Digest) {
    let [first, second] = event.intermediates;
    digest.number(event.start as u64);
    digest.number(event.length as u64);
    digest.number(u64::from_le_bytes([
        event.kind,
        event.byte,
        event.flag,
        event.intermediate_count,
        first,
        second,
        0,
        0,
    ]));
}

/// A record that no call has written.
fn no_event() -> Event {
    Event {
        start: 0,
        length: 0,
        kind: 0,
        byte: 0,
        flag: 0,
        intermediate_count: 0,
        intermediates: [0; 2],
        padding: [0; 2],
    }
}
