// The replay: line after line, each on the stream and the lengths that the lines before have left.
use printing::{print, print_stream};
use scripts::signal::signal_of;
use scripts::text::{Line, parse, split_line};
use small_calls::{small_call, unopened, with_field};
use stream::SonicStream;
use transcripts::calls::{flush, make, read, write};
use transcripts::lent::LentLengths;

// What the lines before have left.
#[derive(Clone, Copy)]
struct Session {
    stream: SonicStream,
    lent: LentLengths,
}

// The lengths of a line.
fn lengths(line: Line) -> LentLengths {
    let [input, stage, output, scratch, _] = line.numbers;
    LentLengths {
        input: input as usize,
        stage: stage as usize,
        output: output as usize,
        scratch: scratch as usize,
    }
}

// The session after a line: lengths and a field are noted.
fn noted(session: Session, line: Line) -> Session {
    match line.letter {
        b'l' => Session {
            lent: lengths(line),
            ..session
        },
        b'e' => Session {
            stream: with_field(session.stream, line.numbers[0], line.numbers[1]),
            ..session
        },
        _ => session,
    }
}

// Whether a line is a call: it is no title, and names no lengths and no field.
fn is_call(letter: u8) -> bool {
    !matches!(letter, b'#' | b'l' | b'e')
}

// Makes the call of a line.
fn call(
    rt: &impl Print,
    stream: SonicStream,
    line: Line,
    lent: LentLengths,
    samples: &mut [f32],
    input: &mut [i16],
    stage: &mut [i16],
    output: &mut [i16],
    scratch: &mut [i16],
) -> SonicStream {
    match line.letter {
        b'w' => {
            let count = line.numbers[4] as usize;
            make(signal_of(line), count, samples);
            write(
                rt, stream, count, samples, lent, input, stage, output, scratch,
            )
        }
        b'f' => flush(rt, stream, lent, input, stage, output, scratch),
        b'r' => read(
            rt,
            stream,
            line.numbers[0] as usize,
            line.numbers[1] as usize,
            lent,
            samples,
            output,
        ),
        _ => small_call(rt, stream, line),
    }
}

// Makes the call of a line, if it is one, and prints its answer.
fn follow(
    rt: &impl Print,
    stream: SonicStream,
    line: Line,
    lent: LentLengths,
    samples: &mut [f32],
    input: &mut [i16],
    stage: &mut [i16],
    output: &mut [i16],
    scratch: &mut [i16],
) -> SonicStream {
    if !is_call(line.letter) {
        return stream;
    }
    let after = call(
        rt, stream, line, lent, samples, input, stage, output, scratch,
    );
    print_stream(rt, after, input, stage, output);
    after
}

// Prints and follows every line of a text. A `while`: a turn takes a line.
pub(crate) fn replay_all(
    rt: &impl Print,
    text: &[u8],
    samples: &mut [f32],
    input: &mut [i16],
    stage: &mut [i16],
    output: &mut [i16],
    scratch: &mut [i16],
) {
    let mut session = Session {
        stream: unopened(),
        lent: LentLengths {
            input: 0,
            stage: 0,
            output: 0,
            scratch: 0,
        },
    };
    let mut rest = text;
    while !rest.is_empty() {
        let (text, behind) = split_line(rest);
        print(rt, text);
        let line = parse(text);
        session = noted(session, line);
        session.stream = follow(
            rt,
            session.stream,
            line,
            session.lent,
            samples,
            input,
            stage,
            output,
            scratch,
        );
        rest = behind;
    }
}
