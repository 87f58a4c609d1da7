// Bytes copied into a lent buffer.
ghost use Rattle.std.specs.Prelude.{◌≡◌};
ghost use Rattle.format.specs.Written.{written_if_room};

// Copies bytes into the output from the place `at` on, if they fit there. Otherwise the output stays as it is.
pub fn copy_to(bytes: &[u8], output: &mut [u8], at: usize)
    ensures { output.new ≡ written_if_room output.old at bytes.now }
{
    if at <= output.len() && bytes.len() <= output.len() - at {
        // By place: with `copy_from_slice` the archive for C asks for `memmove`, a name more from outside.
        for i in 0..bytes.len() {
            output[at + i] = bytes[i];
        }
    }
}
