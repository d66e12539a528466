//! Exchanges over HTTP whose reader or writer fails, and the names that a gate has cached, over tables of any kind.
//!
//! A program of cases determines which tables a room begins with, and gives it the lines:
//!
//! - `row RECORD`: one more row of the first policy, written as in a policy file.
//! - `begin LINE`: one more line of the script of the beginning.
//! - `script LINE`: a line of a script. `many FROM TO LINE`: one for each number from FROM up to TO, for which `#`
//!   stands.
//! - `cached`: for how many names the gate has cached which profile decides.
//! - `rows`: how many rows the account has.
//! - MOMENT REQUEST: one exchange. Status, whether a request was handled, and the response; `\r` stands for a carriage
//!   return.
//! - MOMENT DRIP REQUEST: the same, with one byte a read and one byte a write.
//! - MOMENT CUT REQUEST: an exchange for each number of bytes after which the request may end too early. The response
//!   to no byte, and the outcome of each of the others.
//! - MOMENT READS REQUEST: an exchange for each number of reads, of one byte, before a read fails.
//! - MOMENT WRITES REQUEST: an exchange, one more for each number of writes, of one byte, before a write fails, and
//!   one whose writer takes nothing. Then how many rows of the account each adds.
//!
//! A REQUEST is `POST PATH BODY`, `GET PATH` or `BYTES TEXT`. In a body or a text `\r`, `\n` and `\t` stand for their
//! characters, and `\x` and two digits for a byte.
#![tactic(auto)]

mod message;
pub mod room;
mod spans;
mod trials;
