// `hemdroas_read` and `hemdroas_write`: turn a routine's bytes into words, and back.
ghost use Rattle.std.specs.Prelude.{◌≡◌, length};
ghost use Rattle.spec.specs.Bytes.{read_answer, read_output, write_answer, write_output};
ghost use Rattle.capi_spec.specs.Numbers.{answer_to};

use capi_values::answers::{ANSWER, answer_of};
use types::Answer;

#[unsafe(no_mangle)]
pub extern "C" fn hemdroas_read(bytes: &[u8], words: &mut [u64], answer: &mut [u32; ANSWER])
    ensures answer { answer.new ≡ answer_to (read_answer bytes.now (length words.old)) }
    ensures content { words.new ≡ read_output bytes.now words.old }
{
    *answer = answer_of(Answer::from(codec::read(bytes, words)));
}

#[unsafe(no_mangle)]
pub extern "C" fn hemdroas_write(words: &[u64], bytes: &mut [u8], answer: &mut [u32; ANSWER])
    ensures answer { answer.new ≡ answer_to (write_answer words.now (length bytes.old)) }
    ensures content { bytes.new ≡ write_output words.now bytes.old }
{
    *answer = answer_of(Answer::from(codec::write(words, bytes)));
}
