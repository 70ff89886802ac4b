// The function of the name lookup that C and Rust link.
ghost use Rattle.results.specs.Name.{name_part};
ghost use Rattle.filbozseg.specs.Calls.{Finds};

// Finds the part of the book's bytes that is the name of a rule, without its filling, and leaves its offset and its length. For the empty
// part both stay as found.
#[unsafe(no_mangle)]
pub extern "C" fn filbozseg_name(
    book: &[u8],
    rule: usize,
    offset: &mut usize,
    size: &mut usize,
) -> u32
    ensures { Finds
        (name_part book.now rule) offset.old size.old
        result offset.new size.new }
{
    let p = lookup::name_part(book, rule);
    let n = p.length;
    if n == 0 {
        return 0;
    }
    *offset = p.offset;
    *size = n;
    1
}
