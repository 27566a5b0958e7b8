// A send and a receive on arbitrary words as C functions, for the bench only: no header declares them and the archive for the
// firmware doesn't have them (`firmware/make-archive test_export` makes an archive of its own). With them the queue's functions are run on
// words that no check accepts.
ghost use Rattle.std.specs.Prelude.{◌≡◌};
ghost use Rattle.queue.specs.Queue.{sendable, left_by_send, receivable, left_by_receive};
ghost use Rattle.test_export.specs.ExportedQueues.{done_code};

// Returns the code for C: 1 where it was done, and 0 where the words stayed as they were.
fn code(done: bool) -> u32
    ensures { result ≡ done_code done }
{
    u32::from(done)
}

// Sends a message to an endpoint's words and returns whether it was done.
// C: uint32_t balkwizu_test_send(uint32_t *words, size_t words_len, uint32_t message)
#[unsafe(no_mangle)]
pub extern "C" fn balkwizu_test_send(words: &mut [u32], message: u32) -> u32
    ensures value { result ≡ done_code (sendable words.old message) }
    ensures words_after { words.new ≡ left_by_send words.old message }
{
    let done = queue::send(words, message);
    code(done)
}

// Receives a message from an endpoint's words and returns whether it was done.
// C: uint32_t balkwizu_test_receive(uint32_t *words, size_t words_len)
#[unsafe(no_mangle)]
pub extern "C" fn balkwizu_test_receive(words: &mut [u32]) -> u32
    ensures value { result ≡ done_code (receivable words.old) }
    ensures words_after { words.new ≡ left_by_receive words.old }
{
    let done = queue::receive(words);
    code(done)
}
