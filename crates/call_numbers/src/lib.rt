// An answer as eight numbers: its own, its values, and zeros after them.
#![tactic(auto)]

ghost use Rattle.std.specs.Prelude.{◌≡◌, ◌≤◌, ◌++◌, [], ◌∷◌, cond, length, take};
ghost use Rattle.std.specs.Result.{result_unwrap_or};
ghost use Rattle.route_bus.specs.definitions.End.{outcome_number};
ghost use Rattle.event_run.specs.definitions.Answers.{ending_number, ending_values};
ghost use Rattle.check_search.specs.definitions.Report.{report_number, report_values};
ghost use Rattle.claim_window.specs.definitions.Range.{is_empty};
ghost use Rattle.call_table.specs.definitions.Call.{number_code};
ghost use Rattle.call_numbers.specs.definitions.Numbers.{eight, zeros, told_code, numbers_of, code_of, reply_numbers, value_numbers, ends_code, ends_numbers, step_numbers};
ghost use Rattle.claim_agent.specs.definitions.Space.{space_number};

use arbiter::Turn;
use check_search::Report;
use claim_agent::Space;
use event_run::{Answer, Ending};
use rack::Range;
use route_bus::Outcome;

// Numbers, and zeros after them.
pub fn eight(numbers: &[u64]) -> [u64; 8]
    requires { length numbers.now ≤ 8 }
    ensures { result ≡ take 8 (numbers.now ++ zeros) }
{
    let mut all = [0; 8];
    all[..numbers.len()].copy_from_slice(numbers);
    all
}

// No `From` of the enum: the numbers are those of an answer to C, of which the enums' crates know nothing.
fn outcome_number(o: Outcome) -> u64
    ensures { result ≡ outcome_number o }
{
    match o {
        Outcome::Abort => 0,
        Outcome::Done => 1,
        Outcome::Target => 2,
    }
}

fn space_number(s: Space) -> u64
    ensures { result ≡ space_number s }
{
    match s {
        Space::Memory => 0,
        Space::Io => 1,
        Space::Configuration => 2,
    }
}

fn ending_numbers(crossings: u32, e: Ending) -> [u64; 8]
    ensures { result ≡ eight (ending_number e) (ending_values crossings e) }
{
    let crossed = crossings.into();
    match e {
        Ending::Data { value } => eight(&[1, crossed, value.into()]),
        Ending::Stored => eight(&[2, crossed]),
        Ending::Owner {
            node,
            region,
            offset,
        } => eight(&[3, crossed, node.into(), region.into(), offset]),
        Ending::Host { offset } => eight(&[4, crossed, offset]),
        Ending::Unclaimed { holder, outcome } => {
            eight(&[5, crossed, holder.into(), outcome_number(outcome)])
        }
        Ending::Clash {
            holder,
            first,
            second,
        } => eight(&[6, crossed, holder.into(), first.into(), second.into()]),
        Ending::Special { holder } => eight(&[12, crossed, holder.into()]),
        Ending::Silent => eight(&[7]),
        Ending::Denied => eight(&[10, crossed]),
    }
}

fn report_numbers(r: Report) -> [u64; 8]
    ensures { result ≡ eight (report_number r) (report_values r) }
{
    match r {
        Ok(()) => eight(&[8]),
        Err(f) => eight(&[
            9,
            f.holder.into(),
            space_number(f.space),
            f.value,
            f.driver.into(),
            f.first.into(),
            f.second.into(),
        ]),
    }
}

fn answer_numbers(a: Answer) -> [u64; 8]
    ensures { result ≡ numbers_of a }
{
    match a {
        Answer::Ended { crossings, ending } => ending_numbers(crossings, ending),
        Answer::Checked(r) => report_numbers(r),
        Answer::Seated(seat) => eight(&[11, seat.into()]),
    }
}

fn alone(value: u64) -> [u64; 8]
    ensures { result ≡ eight value [] }
{
    eight(&[value])
}

// None where the range is empty.
fn range_numbers(r: Range) -> [u64; 8]
    ensures { result ≡ cond (is_empty r) zeros (eight 1 (r.first ∷ r.last ∷ [])) }
{
    if r.last < r.first {
        return [0; 8];
    }
    eight(&[1, r.first, r.last])
}

// What is told: 0 and its numbers, or a refusal's number and zeros.
pub fn put(answer: &mut [u64; 8], told: Result<[u64; 8], u8>) -> u8
    ensures { (result ≡ told_code told) × (answer.new ≡ result_unwrap_or told zeros) }
{
    match told {
        Ok(numbers) => {
            *answer = numbers;
            0
        }
        Err(refusal) => refuse(answer, refusal),
    }
}

// A refusal: every number is 0.
pub fn refuse(answer: &mut [u64; 8], refusal: u8) -> u8
    ensures { (result ≡ refusal) × (answer.new ≡ zeros) }
{
    *answer = [0; 8];
    refusal
}

// An answer; 0, or the refusal's number.
pub fn put_reply(answer: &mut [u64; 8], r: Result<Answer, u8>) -> u8
    ensures { (result ≡ code_of r) × (answer.new ≡ reply_numbers r) }
{
    put(answer, r.map(answer_numbers))
}

// A number alone; 0, or the refusal's number.
pub fn put_value(answer: &mut [u64; 8], n: Result<u64, u8>) -> u8
    ensures { (result ≡ number_code n) × (answer.new ≡ value_numbers n) }
{
    put(answer, n.map(alone))
}

// Both ends of a window or region, none where it is empty; 0, or the refusal's number.
pub fn put_ends(answer: &mut [u64; 8], e: Result<Range, u8>) -> u8
    ensures { (result ≡ ends_code e) × (answer.new ≡ ends_numbers e) }
{
    put(answer, e.map(range_numbers))
}

// Three numbers.
pub fn put_three(answer: &mut [u64; 8], a: u64, b: u64, c: u64)
    ensures { answer.new ≡ eight a (b ∷ c ∷ []) }
{
    *answer = eight(&[a, b, c]);
}

// Who is granted, and the state after; 0, or the refusal's number.
pub fn put_arbitration(answer: &mut [u64; 8], a: Result<Turn, u8>) -> u8
    ensures { (result ≡ told_code a) × (answer.new ≡ step_numbers a) }
{
    match a {
        Err(n) => refuse(answer, n),
        Ok(
            Turn {
                member: None,
                after,
            },
        ) => {
            *answer = eight(&[2, after.high.into(), after.low.into()]);
            0
        }
        Ok(
            Turn {
                member: Some(member),
                after,
            },
        ) => {
            *answer = eight(&[1, member.into(), after.high.into(), after.low.into()]);
            0
        }
    }
}
