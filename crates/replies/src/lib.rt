// What is answered: the numbers returned, and bytes copied to the output.
#![tactic(auto)]

ghost use Rattle.std.specs.Prelude.{◌≡◌, [], ◌∷◌, length};
ghost use Rattle.emit.specs.Emit.{Emits};
ghost use Rattle.book.specs.Answer.{refused};
ghost use Rattle.replies.specs.Replies.{Reply, fit, returned, numbers_of, numbers_given, numbers_by, AnsweredAs, Writes};

use book::{Fault, Refusal};
use emit::Output;

// What is given in answer: two numbers, and how many bytes were written.
#[derive(Clone, Copy, PartialEq, Eq)]
pub struct Given {
    pub first: usize,
    pub second: usize,
    pub bytes: usize,
}

// An answer without output. A function and no `From`: of two numbers a pair would not say which is which.
pub fn give(first: usize, second: usize) -> Given
    ensures { numbers_given result ≡ 0 ∷ 0 ∷ first ∷ second ∷ 0 ∷ [] }
{
    Given {
        first,
        second,
        bytes: 0,
    }
}

// An answer as C is handed it, which takes no enum: the refusal's number and place, or 0 and 0 with the answer's two numbers and the bytes written.
#[repr(C)]
#[derive(Clone, Copy, PartialEq, Eq, Default)]
pub struct Numbers {
    pub number: u64,
    pub place: u64,
    pub first: u64,
    pub second: u64,
    pub bytes: u64,
}

// A refusal by its number, which may be any, and its place: what is refused by a `Fault` is made of it below.
#[tactic(auto, unfolding(crate::specs::Replies::returned))]
pub fn refuse(number: u32, place: usize) -> Numbers
    ensures { numbers_of result ≡ returned (refused number place) }
{
    Numbers {
        number: u64::from(number),
        place: place as u64,
        ..Numbers::default()
    }
}

impl From<Result<Given, Refusal>> for Numbers {
    ghost from_gives = { λ answer n. numbers_of n ≡ numbers_by answer };

    fn from(answer: Result<Given, Refusal>) -> Numbers {
        match answer {
            Ok(given) => Numbers {
                number: 0,
                place: 0,
                first: given.first as u64,
                second: given.second as u64,
                bytes: given.bytes as u64,
            },
            Err(reason) => refuse(reason.fault.number(), reason.place),
        }
    }
}

// Copies the text to the start of the output, as far as that reaches; how many bytes it has, which
// may be more than the output has: so no slice is handed back.
pub fn copy_out(text: &[u8], out: &mut [u8]) -> usize
    ensures { Emits text.now out.old 0 out.new result }
{
    let mut answer = Output::new(out);
    answer.put_text(text);
    answer.at
}

// Writes an answer where it fits the output; `write` writes all of it and gives its two numbers. It is written to the scratch first, which counts it,
// and from there to the output; where the scratch is too short it is written once more.
pub fn write_reply<F: Fn(&mut Output) -> (usize, usize)>(
    scratch: &mut [u8],
    out: &mut [u8],
    write: F,
) -> Result<Given, Refusal>
    requires { (o : _) → o.now.at ≡ 0 → F.pre write o }
    ensures { (answer : Reply) → Writes (F.post write) answer → AnsweredAs (fit (length out.old) answer) result out.old out.new }
{
    let mut counted = Output::new(scratch);
    let (first, second) = write(&mut counted);
    let need = counted.at;
    if out.len() < need {
        return Err(Refusal {
            fault: Fault::NoRoom,
            place: need,
        });
    }
    if need <= counted.bytes.len() {
        let bytes = copy_out(counted.text(), out);
        return Ok(Given {
            first,
            second,
            bytes,
        });
    }
    let mut answer = Output::new(out);
    let (first, second) = write(&mut answer);
    let bytes = answer.at;
    Ok(Given {
        first,
        second,
        bytes,
    })
}
