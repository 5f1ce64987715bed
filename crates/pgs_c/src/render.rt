// Painting a display set.
ghost use Rattle.pgs_c_render.specs.Render.{RenderCall};

#[unsafe(no_mangle)]
pub extern "C" fn pgs_render(
    stream: &[u8],
    set: u64,
    scratch: &mut [u8],
    plane: &mut [u8],
    shown: &mut [u64; 3],
) -> u8
    ensures { RenderCall stream.now set scratch.old scratch.new plane.old plane.new shown.old shown.new result }
{
    pgs_c_render::render::pgs_render(stream, set, scratch, plane, shown)
}
