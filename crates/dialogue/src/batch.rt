// A batch of lines: its calls, their replies, and the words of these.
ghost use Rattle.std.specs.Prelude.{◌≡◌, ◌++◌, IfOk, OnOk, vec_items};
ghost use Rattle.std.specs.String.{string_bytes};
ghost use Rattle.dialogue.specs.Talk.{calls_in, reply_lines, reply_line, Answered};

use binder::binders::Binder;
use commands::lines::Lines;
use commands::parse::parse;
use session::state::Session;
use std::alloc::{AllocError, Allocator};
use std::io;
use subject::answer::Reply;
use subject::call::Call;
use subject::denial::Denial;

// The calls that the lines of some input make.
fn calls_in<A: Allocator>(alloc: A, input: &[u8]) -> Result<Vec<Option<Call>, A>, AllocError>
    ensures { IfOk result (λ calls. vec_items calls ≡ calls_in input.now) }
{
    Lines::new(input).map(parse).collect(alloc)
}

// Puts the words of a reply and a line end behind the text. An answer and a denial print by their own `Display`: a type
// over the two would be no plainer.
fn put<A: Allocator>(reply: &Reply, text: &mut String<A>) -> Result<(), AllocError>
    ensures { OnOk result (string_bytes text.new ≡ string_bytes text.old ++ reply_line reply.now) }
{
    match reply {
        Ok(answer) => writeln!(text, "{answer}"),
        Err(denial) => writeln!(text, "{denial}"),
    }
}

// The words of the replies, a line for each. They are gathered as text: a writer of bytes goes through an adapter at each
// piece, and a plan has as many pieces as slots.
fn words_of<A: Allocator>(alloc: A, replies: &[Reply]) -> io::Result<Vec<u8, A>>
    ensures { IfOk result (λ words. vec_items words ≡ reply_lines replies.now) }
{
    let mut text = String::new(alloc);
    for reply in replies {
        put(reply, &mut text)?;
    }
    Ok(text.into_bytes())
}

// Answers the lines of some input, and says it in words. An error is one of memory; when one comes is left free.
pub fn answer<B: Binder + Drop, A: Allocator + Copy>(
    alloc: A,
    session: Session<B>,
    input: &[u8],
) -> io::Result<(Session<B>, Vec<u8, A>)>
    ensures { IfOk result (λ p. Answered B.Binder.meaning input.now (vec_items p.1) session p.0) }
{
    let calls = calls_in(alloc, input)?;
    let mut room = Vec::from_elem(alloc, Err(Denial::NotPossible), calls.len())?;
    let replies = room.as_mut_slice();
    let mut plan = [0; 48];
    let after = session.run(calls.as_slice(), replies, &mut plan[..]);
    let words = words_of(alloc, replies)?;
    Ok((after, words))
}
