// Room for what is read and written.
ghost use Rattle.std.specs.Prelude.{◌≡◌, replicate};

// An array that is filled with an item. As a function's answer it stays opaque to a proof, however long it is.
pub fn filled<T: Copy, const N: usize>(item: T) -> [T; N]
    ensures { result ≡ replicate N item }
{
    [item; N]
}
