//! What a session answers to a command, and the line of each answer.

ghost use Rattle.std.specs.Prelude.{◌≡◌, ◌≤◌, length};
ghost use Rattle.cc_report.specs.Outcome.{line};
ghost use Rattle.cc_top.specs.Answers.{line_of};

use cc_report::{Line, Outcome, Refusal, push_decimal, push_text, text_of};

/// What a session answers to a command.
#[derive(Clone, Copy)]
pub enum Answer {
    /// The text stands in place of the definition of the function.
    Replaced,
    /// The image of the source was written, for which so many functions were stale.
    Image { jobs: u32 },
    /// No function of the source has the name.
    NoFunction,
    /// The new source is refused.
    Refused(Refusal),
    /// The new source defines functions of other names, or in another order.
    OtherNames,
}

fn text_line(text: &[u8]) -> Line
    requires { length text.now ≤ 191 }
    ensures { result ≡ line text.now }
{
    let mut line = Line::new();
    push_text(&mut line, text);
    line.push(b'\n');
    line
}

fn image_line(jobs: u32) -> Line
    ensures { result ≡ line_of (Answer.Image jobs) }
{
    let mut line = Line::new();
    push_text(&mut line, b"image ");
    push_decimal(&mut line, jobs.into());
    line.push(b'\n');
    line
}

/// The line of an answer.
pub(crate) fn line_of(answer: Answer) -> Line
    ensures { result ≡ line_of answer }
{
    match answer {
        Answer::Replaced => text_line(b"replaced"),
        Answer::Image { jobs } => image_line(jobs),
        Answer::NoFunction => text_line(b"refused NoFunction 71"),
        Answer::Refused(refusal) => text_of(Outcome::Refused(refusal)),
        Answer::OtherNames => text_line(b"refused OtherNames 72"),
    }
}
