//! What a line of a table asks of a store, by its name and its numbers.
ghost use Rattle.std.specs.Prelude.{◌≡◌, IfSome, MatchOption, ◌≢◌};
ghost use Rattle.calls.specs.Calls.{request_word, HasNumbers};

use stores::{Call, Operation};

/// What a line of a table asks of a store, with what is passed to it.
#[derive(Clone, Copy, Debug, PartialEq, Eq)]
pub enum Request {
    Start(usize),
    Yield(Call),
    Majority(usize, usize, usize),
    Value(usize, bool, usize),
    Length,
    Release(usize),
}

impl Request {
    /// The request of this name, with what it takes of these three numbers, in order; a bit is 1 where its number is 1.
    /// None where no request has the name.
    pub fn named(name: &str, numbers: [usize; 3]) -> Option<Request>
        ensures word { MatchOption result ((c : Request) → name.now ≢ request_word c) (λ c. name.now ≡ request_word c) }
        ensures numbers { IfSome result (λ c. HasNumbers c numbers) }
    {
        let [a, b, c] = numbers;
        match name {
            "start" => Some(Request::Start(a)),
            "variable" => Some(Request::Yield(Call::Variable(a))),
            "and" => Some(Request::Yield(Call::Join(Operation::And, a, b))),
            "or" => Some(Request::Yield(Call::Join(Operation::Or, a, b))),
            "xor" => Some(Request::Yield(Call::Join(Operation::Xor, a, b))),
            "majority" => Some(Request::Majority(a, b, c)),
            "flip" => Some(Request::Yield(Call::Flip(a))),
            "fix" => Some(Request::Yield(Call::Fix(a, b == 1))),
            "value" => Some(Request::Value(a, b == 1, c)),
            "length" => Some(Request::Length),
            "release" => Some(Request::Release(a)),
            _ => None,
        }
    }
}
