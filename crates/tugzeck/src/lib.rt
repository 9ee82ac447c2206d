// The calls for programs in C and Rust, under names that begin with `tugzeck_`; include/tugzeck.h declares them. Each takes any input, has
// no `requires` and promises the whole of what the call that it stands for promises: specs/Calls.antt of that call's crate, and of this
// one where a result is a struct of numbers. A slice is a pointer and a length, and a configuration that is handed over a pointer to four numbers; a result
// is a number or a struct of numbers.
// Nothing here covers what a caller hands over: pointers valid for their lengths, and outputs that overlap nothing.
#![tactic(auto)]

ghost use Rattle.std.specs.Prelude.{◌≡◌};
ghost use Rattle.code.specs.Code.{number_refusal, width, roots, parameter_refusal};
ghost use Rattle.code.specs.Calls.{EncodeSays, ReadSays, checked};
ghost use Rattle.split.specs.Calls.{SplitSays};
ghost use Rattle.join.specs.Calls.{JoinSays};
ghost use Rattle.decoder.specs.Calls.{DecodeSays};
ghost use Rattle.marker.specs.Calls.{MarkSays};
ghost use Rattle.quantiser.specs.Calls.{QuantiseSays};
ghost use Rattle.receiver.specs.Calls.{ReceiveSays};
ghost use Rattle.sheet_writer.specs.Calls.{WriteSays};
ghost use Rattle.practice.specs.Calls.{PracticeSays};
ghost use Rattle.report.specs.Calls.{ListSays};
ghost use Rattle.tugzeck.specs.Answers.{test_number};
ghost use Rattle.tugzeck.specs.Calls.{JudgeSays, QuestionSays};

mod answers;

pub use answers::{Asked, Decoding, Drawn, Judgement, Listed, Mark, Splitting};
use code::Choice;
use refusal::{Refusal, number_of};
use sheet_writer::Questions;

// Writes the codeword of a message of k symbols into n places. Answers 0, or refuses by 1, 3, 4 or 6 and writes nothing.
#[unsafe(no_mangle)]
pub extern "C" fn tugzeck_encode(code: u32, message: &[u8], output: &mut [u8]) -> u32
    ensures { EncodeSays (number_refusal code) (width code) (roots code) message.now result output.old output.new }
{
    number_of(&code::encode(Choice::Number(code), message, output))
}

// The same, by m and r: refuses by 16 too, after 1.
#[unsafe(no_mangle)]
pub extern "C" fn tugzeck_encode_by(m: u32, r: u32, message: &[u8], output: &mut [u8]) -> u32
    ensures { EncodeSays (parameter_refusal m r) m r message.now result output.old output.new }
{
    number_of(&code::encode(Choice::Parameters { m, r }, message, output))
}

// Writes the message of a codeword into k places. Answers 0, or refuses by 1, 3, 4, 6 or 8 and writes nothing.
#[unsafe(no_mangle)]
pub extern "C" fn tugzeck_read_word(code: u32, word: &[u8], output: &mut [u8]) -> u32
    ensures { ReadSays (number_refusal code) (width code) (roots code) word.now result output.old output.new }
{
    number_of(&code::read_word(Choice::Number(code), word, output))
}

// The same, by m and r: refuses by 16 too, after 1.
#[unsafe(no_mangle)]
pub extern "C" fn tugzeck_read_word_by(m: u32, r: u32, word: &[u8], output: &mut [u8]) -> u32
    ensures { ReadSays (parameter_refusal m r) m r word.now result output.old output.new }
{
    number_of(&code::read_word(Choice::Parameters { m, r }, word, output))
}

// Answers 0 for a codeword and 8 for another word, or refuses by 1, 3 or 6.
#[unsafe(no_mangle)]
pub extern "C" fn tugzeck_check_word(code: u32, word: &[u8]) -> u32
    ensures { result ≡ checked (number_refusal code) (width code) (roots code) word.now }
{
    number_of_test(code::check_word(Choice::Number(code), word))
}

// The same, by m and r: refuses by 16 too, after 1.
#[unsafe(no_mangle)]
pub extern "C" fn tugzeck_check_word_by(m: u32, r: u32, word: &[u8]) -> u32
    ensures { result ≡ checked (parameter_refusal m r) m r word.now }
{
    number_of_test(code::check_word(Choice::Parameters { m, r }, word))
}

// The number of an answer of the codeword test: a word that is no codeword has 8, as where it is to be read.
fn number_of_test(answer: Result<bool, Refusal>) -> u32
    ensures { result ≡ test_number answer }
{
    match answer {
        Ok(true) => 0,
        Ok(false) => Refusal::NoCodeword.number(),
        Err(refusal) => refusal.number(),
    }
}

// Splits a codeword: 0 with its configuration, and the BCH word of each layer in n·m places, layer 1 first. Or it refuses by 1, 3, 4, 6 or
// 8 with a configuration of zeros and writes nothing.
#[unsafe(no_mangle)]
pub extern "C" fn tugzeck_split(code: u32, word: &[u8], bch: &mut [u8]) -> Splitting
    ensures { SplitSays (number_refusal code) (width code) (roots code) word.now result.number result.configuration bch.old bch.new }
{
    split::split(Choice::Number(code), word, bch).into()
}

// The same, by m and r: refuses by 16 too, after 1.
#[unsafe(no_mangle)]
pub extern "C" fn tugzeck_split_by(m: u32, r: u32, word: &[u8], bch: &mut [u8]) -> Splitting
    ensures { SplitSays (parameter_refusal m r) m r word.now result.number result.configuration bch.old bch.new }
{
    split::split(Choice::Parameters { m, r }, word, bch).into()
}

// Joins a configuration, read from four numbers, and BCH words of n·m values to the codeword that splits into them, in n places. Answers 0, or refuses by 1, 3,
// 4, 18 or 19 and writes nothing.
#[unsafe(no_mangle)]
pub extern "C" fn tugzeck_join(
    code: u32,
    configuration: &[u16; 4],
    bch: &[u8],
    output: &mut [u8],
) -> u32
    ensures { JoinSays (number_refusal code) (width code) (roots code) configuration.now bch.now result output.old output.new }
{
    number_of(&join::join(Choice::Number(code), *configuration, bch, output))
}

// The same, by m and r: refuses by 16 too, after 1.
#[unsafe(no_mangle)]
pub extern "C" fn tugzeck_join_by(
    m: u32,
    r: u32,
    configuration: &[u16; 4],
    bch: &[u8],
    output: &mut [u8],
) -> u32
    ensures { JoinSays (parameter_refusal m r) m r configuration.now bch.now result output.old output.new }
{
    number_of(&join::join(Choice::Parameters { m, r }, *configuration, bch, output))
}

// Decodes a row of n·m reliabilities: 0 with the best metric, the first best word in n places and the soft outputs in n·m; the scratch, 16,384 numbers,
// is all 0 then. Or it refuses by 1, 2, 4, 17 or 5 with the metric 0, writes nothing and leaves the scratch.
#[unsafe(no_mangle)]
pub extern "C" fn tugzeck_decode(
    code: u32,
    row: &[i16],
    word: &mut [u8],
    soft: &mut [i16],
    scratch: &mut [i32],
) -> Decoding
    ensures { DecodeSays (number_refusal code) (width code) (roots code) row.now result.number result.metric word.old word.new soft.old soft.new scratch.old scratch.new }
{
    decoder::decode(Choice::Number(code), row, word, soft, scratch).into()
}

// The same, by m and r: refuses by 16 too, after 1.
#[unsafe(no_mangle)]
pub extern "C" fn tugzeck_decode_by(
    m: u32,
    r: u32,
    row: &[i16],
    word: &mut [u8],
    soft: &mut [i16],
    scratch: &mut [i32],
) -> Decoding
    ensures { DecodeSays (parameter_refusal m r) m r row.now result.number result.metric word.old word.new soft.old soft.new scratch.old scratch.new }
{
    decoder::decode(Choice::Parameters { m, r }, row, word, soft, scratch).into()
}

// Judges a word of n symbols for a row: 0 with the verdict (0 none, 1 short, 2 best) and the shortfall; the scratch is all 0 then. Or it refuses by 1, 2, 3,
// 17, 5 or 6 with the verdict 0 and the shortfall 0 and leaves the scratch.
#[unsafe(no_mangle)]
pub extern "C" fn tugzeck_mark(code: u32, row: &[i16], word: &[u8], scratch: &mut [i32]) -> Mark
    ensures { MarkSays (number_refusal code) (width code) (roots code) row.now word.now result.number result.verdict result.shortfall scratch.old scratch.new }
{
    marker::judge_word(Choice::Number(code), row, word, scratch).into()
}

// The same, by m and r: refuses by 16 too, after 1.
#[unsafe(no_mangle)]
pub extern "C" fn tugzeck_mark_by(
    m: u32,
    r: u32,
    row: &[i16],
    word: &[u8],
    scratch: &mut [i32],
) -> Mark
    ensures { MarkSays (parameter_refusal m r) m r row.now word.now result.number result.verdict result.shortfall scratch.old scratch.new }
{
    marker::judge_word(Choice::Parameters { m, r }, row, word, scratch).into()
}

// Turns the n·m samples of a row into reliabilities. Answers 0, or refuses by 1, 2, 4 or 7 and writes nothing.
#[unsafe(no_mangle)]
pub extern "C" fn tugzeck_quantise(code: u32, samples: &[f32], row: &mut [i16]) -> u32
    ensures { QuantiseSays (number_refusal code) (width code) samples.now result row.old row.new }
{
    number_of(&quantiser::quantise(Choice::Number(code), samples, row))
}

// The same, by m and r: refuses by 16 too, after 1.
#[unsafe(no_mangle)]
pub extern "C" fn tugzeck_quantise_by(m: u32, r: u32, samples: &[f32], row: &mut [i16]) -> u32
    ensures { QuantiseSays (parameter_refusal m r) m samples.now result row.old row.new }
{
    number_of(&quantiser::quantise(Choice::Parameters { m, r }, samples, row))
}

// Turns received symbols, by their kinds and samples, into the n·m reliabilities of a row. Answers 0, or refuses by 1, 4, 14, 15 or 7 and
// writes nothing.
#[unsafe(no_mangle)]
pub extern "C" fn tugzeck_receive(code: u32, kinds: &[u8], samples: &[f32], row: &mut [i16]) -> u32
    ensures { ReceiveSays (number_refusal code) (width code) kinds.now samples.now result row.old row.new }
{
    number_of(&receiver::receive(Choice::Number(code), kinds, samples, row))
}

// The same, by m and r: refuses by 16 too, after 1.
#[unsafe(no_mangle)]
pub extern "C" fn tugzeck_receive_by(
    m: u32,
    r: u32,
    kinds: &[u8],
    samples: &[f32],
    row: &mut [i16],
) -> u32
    ensures { ReceiveSays (parameter_refusal m r) m kinds.now samples.now result row.old row.new }
{
    number_of(&receiver::receive(Choice::Parameters { m, r }, kinds, samples, row))
}

// Judges a whole sheet: 0 with the count of its questions. Or it refuses by 1, 5, 6 or 9 to 13 with the count 0.
#[unsafe(no_mangle)]
pub extern "C" fn tugzeck_judge_sheet(sheet: &[u8]) -> Judgement
    ensures { JudgeSays sheet.now result }
{
    sheet::judge_sheet(sheet).into()
}

// The question that has `index` others before it: its code and number, its row in n·m places and the word handed in in n. Or it answers that
// none is left, whatever the outputs, or refuses by the sheet's refusal, else by 4; then it writes nothing.
#[unsafe(no_mangle)]
pub extern "C" fn tugzeck_question(
    sheet: &[u8],
    index: usize,
    row: &mut [i16],
    word: &mut [u8],
) -> Asked
    ensures { QuestionSays sheet.now index result row.old row.new word.old word.new }
{
    sheet_reader::question_of(sheet, index, row, word).into()
}

// Writes the sheet of a question list, lent as its codes, its question numbers, all rows end to end and all words end to end. Answers 0, or
// refuses by 12, by 1, 11, 2, 3, 5 or 6 question by question, or by 4, and writes nothing.
#[unsafe(no_mangle)]
pub extern "C" fn tugzeck_write_sheet(
    codes: &[u32],
    numbers: &[u32],
    rows: &[i16],
    words: &[u8],
    output: &mut [u8],
) -> u32
    ensures { WriteSays codes.now numbers.now rows.now words.now result output.old output.new }
{
    let questions = Questions {
        codes,
        numbers,
        rows,
        words,
    };
    number_of(&sheet_writer::write_sheet(questions, output))
}

// Writes the practice sheet of so many questions of a code, drawn from a state: 0 and the state after the last draw. Or it refuses by 12, 1 or 4 with the
// state as it was lent, and writes nothing.
#[unsafe(no_mangle)]
pub extern "C" fn tugzeck_practice(code: u32, count: u32, state: u32, output: &mut [u8]) -> Drawn
    ensures { PracticeSays code count state result.number result.state output.old output.new }
{
    Drawn::new(practice::draw_sheet(code, count, state, output), state)
}

// Writes the listing of a sheet, accepted or refused, at the start of 19,058 bytes: 0 with the length of the text. Or it refuses by 4 with
// the length 0 and writes nothing.
#[unsafe(no_mangle)]
pub extern "C" fn tugzeck_list(sheet: &[u8], output: &mut [u8]) -> Listed
    ensures { ListSays sheet.now result.number result.long output.old output.new }
{
    report::list(sheet, output).into()
}

#[cfg(test)]
mod tests {
    use super::*;

    // What a refused call hands back: the refusal's number, 0 in every other field, and a state as it was lent.
    #[test]
    fn refused_answers(rt: HostRuntime) {
        let splitting = tugzeck_split(9, &[], &mut []);
        assert_eq!(rt; splitting.number, 1);
        assert!(rt; splitting.configuration == [0; 4]);
        let decoding = tugzeck_decode(9, &[], &mut [], &mut [], &mut []);
        assert_eq!(rt; decoding.number, 1);
        assert_eq!(rt; decoding.metric, 0);
        let mark = tugzeck_mark_by(3, 7, &[], &[], &mut []);
        assert_eq!(rt; mark.number, 16);
        assert_eq!(rt; mark.verdict, 0);
        assert_eq!(rt; mark.shortfall, 0);
        let drawn = tugzeck_practice(9, 1, 7, &mut []);
        assert_eq!(rt; drawn.number, 1);
        assert_eq!(rt; drawn.state, 7);
        let judgement = tugzeck_judge_sheet(&[0]);
        assert_eq!(rt; judgement.number, 9);
        assert_eq!(rt; judgement.questions, 0);
        let asked = tugzeck_question(&[0], 0, &mut [], &mut []);
        assert_eq!(rt; asked.number, 9);
        assert_eq!(rt; asked.found, 0);
        assert_eq!(rt; asked.code, 0);
        assert_eq!(rt; asked.question, 0);
        let listed = tugzeck_list(&[], &mut []);
        assert_eq!(rt; listed.number, 4);
        assert_eq!(rt; listed.long, 0);
    }
}
