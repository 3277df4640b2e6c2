// The exports of host for C, as include/ruttedwhite.h declares them: each calls the function of its name in host, and promises the same.
#![tactic(auto)]

ghost use Rattle.std.specs.Prelude.{◌≡◌, length};
ghost use Rattle.host.specs.Host.{host_refusal, host_value};

// 0 where the field of `width` bits at bit `place` can be had, else 1 (slice too long), 3 (width above 64) or 9 (it ends past the slice).
#[unsafe(no_mangle)]
pub extern "C" fn strip_refusal(order: u32, place: u64, width: u32, src: &[u8]) -> u32
    ensures { result ≡ host_refusal place width (length src.now) }
{
    host::strip_refusal(order, place, width, src)
}

// The field's value, or 0 where `strip_refusal` is not 0.
#[unsafe(no_mangle)]
pub extern "C" fn strip_value(order: u32, place: u64, width: u32, src: &[u8]) -> u64
    ensures { result ≡ host_value order place width src.now }
{
    host::strip_value(order, place, width, src)
}
