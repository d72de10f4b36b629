//! All of the bytes.

ghost use Rattle.std.specs.Prelude.{◌≡◌, ◌≤◌, ℕ, List, Result, length};
ghost use Rattle.byte_grammar.specs.Calls.{Gives, ReadsWithin, Decodes};
ghost use Rattle.byte_grammar.specs.Reader.{Reader};

use crate::fault::CodecFault;
use crate::stop::Stop;

/// What was read from the front of the bytes, where nothing stands behind it.
pub fn whole_of<T: Drop>(bytes: &[u8], read: Result<(T, &[u8]), Stop>) -> Result<T, CodecFault>
    requires { ReadsWithin (λ x. length x.1.now) (length bytes.now) read }
    ensures { (reader : Reader T) → Gives (λ x. (x.0, x.1.now)) read.entry (reader bytes.now)
        → Decodes reader bytes.now result }
{
    match read {
        Ok((value, rest)) => {
            if rest.is_empty() {
                Ok(value)
            } else {
                Err(CodecFault::Bad {
                    at: (bytes.len() - rest.len()) as u64,
                })
            }
        }
        Err(Stop::Bad { left }) => Err(CodecFault::Bad {
            at: (bytes.len() - left) as u64,
        }),
        Err(Stop::Memory) => Err(CodecFault::Memory),
    }
}
