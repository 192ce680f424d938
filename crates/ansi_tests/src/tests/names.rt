//! Every public item of every library but the screen, by its name, and every implementation that a
//! type of theirs has of a trait of std: what is gone is missed here.
use super::assert_answer;
use super::assert_bytes;
use ansi_html::BlocksWriter;
use ansi_html::Element;
use ansi_html::HtmlWriter;
use ansi_html::LINES_A_BLOCK;
use ansi_html::LinesWriter;
use ansi_html::Link;
use ansi_html::Scheme;
use ansi_html::Standing;
use ansi_html::StyledWriter;
use ansi_html::Styling;
use ansi_html::contrast::BLACK;
use ansi_html::contrast::Rgb;
use ansi_html::contrast::WHITE;
use ansi_html::contrast::linear;
use ansi_html::convert;
use ansi_html::convert_lines;
use ansi_html::is_link_command;
use ansi_html::put_block_begin;
use ansi_html::put_block_end;
use ansi_html::put_stylesheet;
use ansi_html::put_text;
use ansi_html::verbatim_length;
use ansi_strip::Inert;
use ansi_strip::LineFeeds;
use ansi_strip::Stripper;
use ansi_strip::is_clear;
use ansi_strip::is_clear_padded;
use ansi_strip::is_driving;
use ansi_strip::is_layout;
use ansi_strip::split_at_driving;
use ansi_strip::strip;
use ansi_strip::strip_inert;
use ansi_style::Color;
use ansi_style::Hue;
use ansi_style::Style;
use ansi_style::Underline;
use ansi_style::bytes::flag;
use ansi_style::bytes::kind_number;
use anstyle_parse::AsciiParser;
use anstyle_parse::CharAccumulator;
use anstyle_parse::DefaultCharAccumulator;
use anstyle_parse::Padded;
use anstyle_parse::Params;
use anstyle_parse::ParamsIter;
use anstyle_parse::Parser;
use anstyle_parse::Perform;
use anstyle_parse::PerformText;
use anstyle_parse::Taken;
use anstyle_parse::Utf8Parser;
use anstyle_parse::canon::CanonWriter;
use anstyle_parse::canon::MAX_CHECKPOINT;
use anstyle_parse::canon::checkpoint;
use anstyle_parse::io::Buffer;
use anstyle_parse::io::CallWriter;
use anstyle_parse::io::Fault;
use anstyle_parse::io::FromRead;
use anstyle_parse::io::FromWrite;
use anstyle_parse::io::Output;
use anstyle_parse::io::Sink;
use anstyle_parse::io::Source;
use anstyle_parse::io::Stop;
use anstyle_parse::io::WritingPerformer;
use anstyle_parse::io::drive;
use anstyle_parse::io::perform_texts_to_end;
use anstyle_parse::io::perform_to_end;
use anstyle_parse::io::write_calls;
use anstyle_parse::io::write_calls_between;
use anstyle_parse::io::write_calls_by;
use anstyle_parse::laws::action_as_number;
use anstyle_parse::laws::bounds;
use anstyle_parse::laws::calls_are_lawful;
use anstyle_parse::laws::calls_of_bytes;
use anstyle_parse::laws::cancelled;
use anstyle_parse::laws::canonical_again;
use anstyle_parse::laws::canonical_text;
use anstyle_parse::laws::cloned_variants;
use anstyle_parse::laws::clones;
use anstyle_parse::laws::counted;
use anstyle_parse::laws::default_variants;
use anstyle_parse::laws::equal_accumulators;
use anstyle_parse::laws::equal_parsers;
use anstyle_parse::laws::equal_texts;
use anstyle_parse::laws::equal_variants;
use anstyle_parse::laws::forgotten;
use anstyle_parse::laws::front_of_a_character;
use anstyle_parse::laws::headline;
use anstyle_parse::laws::lawful_exactly;
use anstyle_parse::laws::read_logs;
use anstyle_parse::laws::replay;
use anstyle_parse::laws::state_as_number;
use anstyle_parse::state::Action;
use anstyle_parse::state::State;
use anstyle_parse::state::state_change;
use command_line::Request;
use command_line::VERSION;
use command_line::answered;
use command_line::asked_of;
use command_line::buffered;
use command_line::failed;
use command_line::given_words;
use command_line::has_word;
use command_line::message;
use command_line::misused;
use command_line::value_of;
use command_line::wrong_size;
use event_pieces::Event;
use examples::plain;
use examples::write_last_style;
use html_pieces::ColorBytes;
use html_pieces::END_ROOM;
use html_pieces::ElementBytes;
use html_pieces::HtmlState;
use html_pieces::StyleBytes;
use html_urls::Linking;
use html_urls::Resumable;
use html_urls::laws::html_of_links;
use html_urls::laws::linked_stream;
use html_urls::laws::same_text;
use std::alloc::Global;
use std::fmt::Debug;
use std::io;
use std::io::ErrorKind;
use std::io::IsTerminal;
use std::io::Read;
use std::io::Write;
use std::iter::FusedIterator;
use std::process::Abort;
use std::process::ExitCode;
use std::rt::Env;
use std::test::Fail;
use stream_state::Fed;
use stream_state::StreamState;
use stream_state::print_end;
use stream_state::put_over;
use strip_pieces::LEAST_ROOM;
use test_streams::Paper;
use test_streams::TROUBLES;
use test_streams::Tape;
use test_streams::repeated;

type Memory = FromWrite<Vec<u8>>;

type Reader = FromRead<&'static [u8]>;

/// A value that is shown, copied and compared.
fn is_plain<T: Debug + Copy + Clone + PartialEq + Eq>(_: T) {}

/// One that has a default too, and is made of its number.
fn has_number<T: Debug + Copy + Clone + PartialEq + Eq + Default + TryFrom<u8>>(_: T) {}

/// One that is shown, cloned and compared, and has a default.
fn is_kept<T: Debug + Clone + PartialEq + Eq + Default + Drop>(_: &T) {}

fn is_accumulator<T: CharAccumulator>(_: &T) {}

fn is_performer<T: Perform>(_: &T) {}

fn is_source<T: Source + Drop>(_: &T) {}

fn is_sink<T: Sink + Drop>(_: &T) {}

fn is_reader<T: Read + Drop>(_: &T) {}

fn is_writer<T: Write + Drop>(_: &T) {}

fn writes_calls<T: CallWriter<Memory> + PerformText + Drop>(_: &T) {}

fn is_writing<T: WritingPerformer<Memory> + PerformText + Drop>(_: &T) {}

/// One in front of which addresses become links.
fn is_resumable<T: Resumable<Memory> + Drop>(_: &T) {}

fn is_iterator<T: Iterator + ExactSizeIterator + FusedIterator + Drop>(_: &T) {}

#[test]
fn names_of_the_parser(rt: HostRuntime) {
    let parser = Parser::<Utf8Parser>::new();
    is_kept(&parser);
    is_kept(&Parser::<AsciiParser>::default());
    is_kept(&AsciiParser);
    is_accumulator(&AsciiParser);
    is_kept(&Utf8Parser::default());
    is_accumulator(&DefaultCharAccumulator::default());
    assert!(rt; !parser.is_in_char() && !parser.is_in_string() && !parser.is_in_sequence());
    is_performer(&());
    is_plain(Taken::More);
    is_plain(Taken::Char('a'));
    is_plain(Taken::Broken('a'));

    let params = Params::default();
    is_kept(&params);
    let iter: ParamsIter = params.iter();
    is_iterator(&iter);
    for _group in &params {}
    assert!(rt; params.is_empty() && params.len() == 0);
    Params::equality_law();
    Params::text_law();

    has_number(State::Ground);
    has_number(Action::Nop);
    assert!(rt; state_change(State::Ground, 0x1B) == (State::Escape, Action::Nop));
}

#[test]
fn names_of_the_laws(rt: HostRuntime) {
    headline(&mut Style::default(), &[b"a".as_slice()]);
    front_of_a_character();
    lawful_exactly();
    calls_are_lawful();
    calls_of_bytes();
    replay();
    read_logs();
    anstyle_parse::laws::items_of_logs();
    anstyle_parse::laws::log_bounds();
    equal_texts();
    canonical_again();
    bounds();
    canonical_text::<Memory>();
    counted::<Style>();
    forgotten::<Utf8Parser>();
    cancelled::<Utf8Parser>();
    equal_parsers();
    equal_accumulators();
    clones();
    equal_variants();
    cloned_variants();
    same_text();
    html_of_links();
    linked_stream();
    html_urls::laws::addresses();
    ansi_html::laws::log_length();
    default_variants();
    assert_eq!(rt; state_as_number(State::Anywhere), 0);
    assert_eq!(rt; action_as_number(Action::Nop), 0);
    ansi_strip::laws::stripped_twice();
    ansi_strip::laws::stripped_length();
    ansi_strip::laws::stripped_utf8();
    ansi_strip::laws::clean_text();
    ansi_strip::laws::piece_length();
    ansi_strip::laws::cut_before_escape();
    ansi_strip::laws::drives_nothing();
    ansi_strip::laws::inert_twice();
    ansi_strip::laws::inert_length();
    ansi_strip::laws::inert_utf8();
    ansi_strip::laws::line_feeds();
    ansi_strip::laws::inert_clean_text();
    ansi_strip::laws::inert_cut_before_escape();
    ansi_style::laws::reset();
    ansi_style::laws::joined();
    ansi_style::laws::forms();
    ansi_style::laws::equality();
    ansi_style::laws::clones();
    assert_eq!(rt; ansi_style::laws::hue_as_number(Hue::Black), 0);
    stream_state::laws::states();
    strip_pieces::laws::texts_joined();
    strip_pieces::laws::logs();
    stream_state::laws::equality();
    stream_state::laws::clones();
}

/// What is taken and written of a byte with a colour in a link; and ends in a room that is too little, and in one that
/// is not.
fn assert_fed(rt: &impl Abort, state: &mut HtmlState) {
    let mut room = [0; END_ROOM];
    // <a rel="nofollow noreferrer" href="http://a" class="ansi-link"><span class="ansi-f1">x, and </span></a>
    let fed = state.feed(b"\x1B]8;;http://a\x07\x1B[31mx", &mut room);
    assert!(rt;
        fed == Some(Fed {
            taken: 20,
            written: 86
        })
    );
    assert!(rt; html_pieces::LEAST_ROOM < END_ROOM);
    let mut little = [0; END_ROOM - 1];
    assert!(rt; state.end(&mut little) == None);
    assert!(rt; state.end(&mut room) == Some(11));
}

#[test]
fn names_of_html_in_pieces(rt: HostRuntime) {
    let mut state = HtmlState::new(Styling::Classes);
    let held: ElementBytes = state.shown;
    let style: StyleBytes = held.style;
    let color: ColorBytes = style.foreground;
    assert_eq!(rt; color.kind, 0);
    assert_fed(&rt, &mut state);
    let plain = Element {
        style: Style::default(),
        link: b"",
    };
    let standing = Standing {
        shown: plain,
        selected: plain,
        returned: true,
    };
    let writer = HtmlWriter::resume(Styling::Classes, standing, Output::new(memory(rt.alloc())));
    assert!(rt; writer.standing().returned);
    assert_well(&rt, writer.suspend().finish());
    html_pieces::laws::states();
    html_pieces::laws::html_joined();
    html_pieces::laws::clones();
    ansi_html::laws::equality();
    ansi_html::laws::clones();
}

#[test]
fn names_of_events(rt: HostRuntime) {
    let mut state = StreamState::new();
    let none = Event {
        start: 0,
        length: 0,
        kind: event_pieces::UNHOOK,
        byte: 0,
        flag: 0,
        intermediate_count: 0,
        intermediates: [0; 2],
        padding: [0; 2],
    };
    let mut events = [none; 4 * event_pieces::LEAST_EVENTS];
    let mut room = [0; 2 * event_pieces::LEAST_ROOM];
    let before = state;
    let fed = event_pieces::feed(&mut state, b"\x1B[31mx\x07", &mut events, &mut room);
    assert!(rt;
        fed == Some(event_pieces::Fed {
            taken: 7,
            written: 3,
            used: 4
        })
    );
    assert_eq!(rt; events[0].padding, [0; 2]);
    assert_eq!(rt;
        [events[0].kind, events[1].kind, events[2].kind],
        [event_pieces::CSI, event_pieces::TEXT, event_pieces::EXECUTE]
    );
    let others = [
        event_pieces::HOOK,
        event_pieces::PUT,
        event_pieces::OSC,
        event_pieces::ESC,
    ];
    assert_eq!(rt; others.len(), 4);
    let mut ends = [0; 4];
    assert_eq!(rt;
        event_pieces::find_ends(&before, b"\x1B[31mx\x07", &mut ends),
        3
    );
    assert_eq!(rt; ends, [5, 6, 7, 0]);
    assert!(rt; !event_pieces::may_be_cut(&events[0], &room));
    event_pieces::laws::ends();
    event_pieces::laws::events_joined();
    event_pieces::laws::equality();
    event_pieces::laws::clones();
}

/// A performer that writes calls, to the end of a reader.
fn assert_driven(rt: &(impl Abort + AllocGlobal)) {
    let mut reader = FromRead::new(b"a".as_slice());
    is_source(&reader);
    let mut performer = CanonWriter::new(memory(rt.alloc()));
    writes_calls(&performer);
    assert!(rt; drive(&mut reader, &mut performer) == Stop::AtEnd);
    assert!(rt; performer.fault().is_none());
    assert_well(rt, performer.finish());
}

#[test]
fn names_of_readers_and_writers(rt: HostRuntime) {
    is_plain(Fault::Read);
    is_plain(Stop::AtEnd);
    assert_driven(&rt);
    is_sink(&memory(rt.alloc()));
    is_sink(&Buffer::by_line(memory(rt.alloc())));
    let buffer = Buffer::new(memory(rt.alloc()));
    assert_eq!(rt; buffer.fault_behind(Fault::Read), Fault::Read);
    assert!(rt; buffer.into_inner().into_inner().is_empty());
}

/// A run that went well; its writer is dropped.
fn assert_well<W: Drop>(rt: &impl Abort, ran: (W, Result<(), Fault>)) {
    let (_writer, answer) = ran;
    assert_answer(rt, answer, Ok(()));
}

fn reader() -> Reader {
    FromRead::new(b"\x1b[1m".as_slice())
}

/// The calls of a reader, by a writer of this kind.
fn assert_calls_written<P: CallWriter<Memory>>(rt: &(impl Abort + AllocGlobal)) {
    let ran = write_calls::<P, Reader, Memory>(&mut reader(), memory(rt.alloc()));
    assert_well(rt, ran);
}

fn assert_written_between(rt: &(impl Abort + AllocGlobal)) {
    let ran = write_calls_between::<CanonWriter<Memory>, Reader, Memory>(
        b"<",
        &mut reader(),
        memory(rt.alloc()),
        b">",
    );
    assert_well(rt, ran);
}

fn assert_stripped(rt: &(impl Abort + AllocGlobal)) {
    assert_well(rt, strip(&mut reader(), memory(rt.alloc())));
    assert_well(rt, strip_inert(&mut reader(), memory(rt.alloc())));
}

fn assert_converted(rt: &(impl Abort + AllocGlobal)) {
    let styling = Styling::Inline(Scheme::Both);
    let ran = convert(styling, b"<", &mut reader(), memory(rt.alloc()), b">");
    assert_well(rt, ran);
    let ran = convert_lines(styling, b"<", &mut reader(), memory(rt.alloc()), b">");
    assert_well(rt, ran);
}

fn assert_kinds_of_bytes(rt: &impl Abort) {
    assert!(rt; MAX_CHECKPOINT > 0 && is_layout(b'\t') && !is_layout(0x07));
    assert!(rt; is_driving('\u{9B}') && !is_driving('\u{A0}'));
    assert!(rt; is_clear(b"a\n") && !is_clear(b"a\x7F"));
}

fn assert_padded(rt: &impl Abort) {
    let text = Padded::new(b"a\x7F--------------", 2);
    let first = text.first(1);
    assert!(rt; text.len() == 2 && text.chunk()[2] == b'-');
    assert!(rt; is_clear_padded(&first) && !is_clear_padded(&text));
    assert_bytes(rt, first.as_bytes(), b"a");
}

fn assert_split(rt: &impl Abort) {
    let (inert, behind) = split_at_driving("a\u{9B}b");
    assert_bytes(rt, inert.as_bytes(), b"a");
    assert_bytes(rt, behind.as_bytes(), b"b");
}

#[test]
fn names_of_runs(rt: HostRuntime) {
    assert_calls_written::<CanonWriter<Memory>>(&rt);
    assert_written_between(&rt);
    assert_stripped(&rt);
    assert_calls_written::<LineFeeds<Memory>>(&rt);
    assert_converted(&rt);
    assert_well(&rt, plain(rt.alloc(), b"a"));
    let parser = Parser::<Utf8Parser>::new();
    assert_well(&rt, checkpoint(&parser, memory(rt.alloc())));
    assert_kinds_of_bytes(&rt);
    assert_padded(&rt);
    assert_split(&rt);
}

/// An output over memory.
fn output(alloc: Global) -> Output<Memory> {
    Output::new(memory(alloc))
}

/// The texts of a reader, for this performer.
fn assert_performs<P: PerformText>(rt: &impl Abort, performer: &mut P) {
    assert_answer(rt, perform_texts_to_end(&mut reader(), performer), Ok(()));
}

/// The calls of a reader, by this writer.
fn assert_writing<P: WritingPerformer<Memory> + Drop>(rt: &impl Abort, writer: P) {
    is_writing(&writer);
    assert_well(rt, write_calls_by(writer, &mut reader(), b">"));
}

/// The same, of one in front of which addresses become links.
fn assert_resumable<P: Resumable<Memory> + Drop>(rt: &impl Abort, writer: P) {
    is_resumable(&writer);
    assert_writing(rt, writer);
}

fn assert_strippers(rt: &(impl Abort + AllocGlobal)) {
    let mut stripper = Stripper::over(output(rt.alloc()));
    writes_calls(&stripper);
    assert_performs(rt, &mut stripper);
    let mut inert = Inert::new(stripper);
    writes_calls(inert.performer());
    assert_performs(rt, &mut inert);
}

fn html_writer(alloc: Global, styling: Styling) -> HtmlWriter<Memory> {
    HtmlWriter::new(styling, output(alloc))
}

fn linking(alloc: Global) -> Linking<HtmlWriter<Memory>> {
    let writer = html_writer(alloc, Styling::Classes);
    is_resumable(&writer);
    Linking::new(writer)
}

fn lines_writer(alloc: Global) -> LinesWriter<Memory> {
    LinesWriter::new(Styling::Classes, output(alloc))
}

fn blocks_writer(alloc: Global) -> BlocksWriter<Memory> {
    BlocksWriter::new(Styling::Classes, true, output(alloc))
}

#[test]
fn names_of_writers(rt: HostRuntime) {
    assert_strippers(&rt);
    let writer = html_writer(rt.alloc(), Styling::Inline(Scheme::Dark));
    assert_writing(&rt, writer);
    assert_writing(&rt, linking(rt.alloc()));
    assert_resumable(&rt, lines_writer(rt.alloc()));
    assert_resumable(&rt, blocks_writer(rt.alloc()));
    let mut style = Style::default();
    assert_answer(&rt, perform_to_end(&mut reader(), &mut style), Ok(()));
    assert!(rt; style != Style::default());
}

/// A link is chosen of the command that asks for it.
fn select_link(rt: &impl Abort, link: &mut Link) {
    let parts: [&[u8]; 3] = [b"8", b"", b"http://a"];
    assert!(rt; is_link_command(&parts));
    link.select(&parts);
    assert_bytes(rt, link.uri(), b"http://a");
}

/// Text and a block are put.
fn put_parts(writer: &mut StyledWriter<Memory>) {
    writer.put_char('a');
    writer.begin_block();
    writer.put_text(b"<b");
    writer.end_block();
}

#[test]
fn names_of_links(rt: HostRuntime) {
    let mut link = Link::none();
    select_link(&rt, &mut link);
    let mut writer = StyledWriter::new(Styling::Classes, output(rt.alloc()));
    writer.select(Style::default(), &link);
    put_parts(&mut writer);
    writer.pass_on();
    assert!(rt; writer.output().fault().is_none());
    assert_well(&rt, writer.into_output().finish());
}

/// What HTML stands on is put, by every name.
fn put_html(output: &mut Output<Memory>) {
    put_text(output, "<");
    put_block_begin(output);
    put_block_end(output);
    put_stylesheet(output, Scheme::Light);
}

/// The parts of a sequence are put, by every name.
fn put_parts_of_sequences(output: &mut Output<Memory>) {
    output.put(b"a");
    output.put_byte(b'b');
    output.put_char('c');
    output.put_decimal(1);
    output.put_groups(&Params::default());
}

#[test]
fn names_of_what_is_put(rt: HostRuntime) {
    let mut output = output(rt.alloc());
    put_html(&mut output);
    assert_eq!(rt; LINES_A_BLOCK, 500);
    assert_eq!(rt; verbatim_length(b"a\tb<"), 3);
    put_parts_of_sequences(&mut output);
    assert!(rt; output.fault().is_none());
    Style::default().write_codes(&mut output);
    write_last_style(b"a", &mut output);
    assert_well(&rt, output.finish());
}

/// What a colour is computed with.
fn assert_contrasts(rt: &impl Abort) {
    assert!(rt; linear(255) == 1_000_000);
    assert!(rt; BLACK.is_read_on_light() && WHITE.is_read_on_dark());
    assert_eq!(rt; WHITE.nearest(), 231);
}

/// Text in pieces: a letter, and the end in too little room and in room enough.
fn assert_letter_and_end(rt: &impl Abort) {
    let mut state = StreamState::new();
    let mut room = [0; LEAST_ROOM];
    let fed = strip_pieces::feed(&mut state, b"a", &mut room);
    assert!(rt;
        fed == Some(Fed {
            taken: 1,
            written: 1
        })
    );
    assert!(rt; !state.is_in_char());
    assert!(rt; strip_pieces::end(&mut state, &mut room[..strip_pieces::END_ROOM - 1]) == None);
    assert!(rt; strip_pieces::end(&mut state, &mut room) == Some(0));
}

#[test]
fn names_of_styles_and_pieces(rt: HostRuntime) {
    is_plain(Scheme::Both);
    is_plain(Styling::Classes);
    is_plain(Rgb {
        red: 1,
        green: 2,
        blue: 3,
    });
    assert_contrasts(&rt);
    is_plain(Hue::Black);
    is_plain(Color::Default);
    is_plain(Color::Named(Hue::at(1)));
    is_plain(Color::Bright(Hue::at(1)));
    is_plain(Color::Indexed(1));
    is_plain(Color::Direct(1, 2, 3));
    is_plain(Underline::Off);
    let mut style = Style::default();
    is_plain(style);
    style.select(&Params::default());

    assert_letter_and_end(&rt);
    is_plain(Fed {
        taken: 1,
        written: 1,
    });
    let mut stripper = Stripper::over(output(rt.alloc()));
    print_end(&mut stripper, true);
}

#[test]
fn names_of_test_streams(rt: HostRuntime) -> Result<(), Fail> {
    is_reader(&Tape::new(b"a"));
    is_reader(&Tape::by_byte(b"a"));
    is_writer(&Paper::new(rt.alloc()));
    is_writer(&Paper::narrow(rt.alloc(), 1, Some(ErrorKind::Other)));
    is_writer(&Paper::failing_once(rt.alloc(), 1, None));
    is_plain(TROUBLES);
    assert_bytes(&rt, repeated(rt.alloc(), &[(b"a", 2)])?.as_slice(), b"aa");
    Ok(())
}

fn memory(alloc: Global) -> Memory {
    FromWrite::new(Vec::new(alloc))
}

// By ansi_color of include/ansi_screen.h: one of the 256 is of kind 3.
#[test]
fn names_of_bytes(rt: HostRuntime) {
    assert_eq!(rt; kind_number(&Color::Indexed(7)), 3);
    let bytes = StyleBytes::of(Style {
        bold: true,
        foreground: Color::Bright(Hue::Red),
        ..Style::default()
    });
    assert_eq!(rt; bytes.foreground.kind, 2);
    assert_eq!(rt; bytes.foreground.values[0], 1);
    assert_eq!(rt; bytes.bold, 1);
    assert_eq!(rt; flag(true), 1);
    assert_eq!(rt; flag(false), 0);
}

/// What the programs share, which no test runs here: it writes to the standard streams.
pub fn names_of_command_line<W: Write + IsTerminal + Drop>(
    rt: &impl Eprint,
    output: W,
) -> (Buffer<FromWrite<W>>, [ExitCode; 3]) {
    (
        buffered(output),
        [
            failed(rt, "", message(Fault::Read)),
            misused(rt, ""),
            wrong_size(rt, ""),
        ],
    )
}

/// The words that programs share, which no test is given.
pub fn names_of_options(rt: &(impl Env + AllocGlobal + Print + Eprint)) -> io::Result<ExitCode> {
    let words = given_words(rt)?;
    let title = if has_word(words.as_slice(), "--title=") {
        ""
    } else {
        VERSION
    };
    let value = value_of(words.as_slice(), "--title=").unwrap_or(title);
    let request = asked_of(words.as_slice(), &["--title="]).unwrap_or(Request::Unknown(value));
    Ok(answered(rt, "", "", request))
}

// Two requests are equal where what they ask for is, the word that is none of the options among it.
#[test]
fn requests(rt: HostRuntime) -> Result<(), Fail> {
    let word = Request::Unknown("--pages");
    assert!(rt; word == word.clone()?);
    assert!(rt; word != Request::Unknown("--page"));
    assert!(rt; Request::Help != Request::Version);
    assert!(rt; Request::Unvalued("--title") != Request::Unknown("--title"));
    Ok(())
}
