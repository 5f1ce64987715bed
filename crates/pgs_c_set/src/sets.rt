// Display sets and their objects.
ghost use Rattle.pgs_c_set.specs.Sets.{SetsCall, ObjectsCall};

use pgs_c_told::told::told;
use pgs_object::object::reassemble_objects;
use pgs_set::set::parse_display_sets;

pub fn pgs_parse_display_sets(stream: &[u8], sets: &mut [[u64; 3]], count: &mut u64) -> u8
    ensures { SetsCall stream.now sets.old sets.new count.old count.new result }
{
    told(parse_display_sets(stream, sets), count)
}

pub fn pgs_reassemble_objects(
    stream: &[u8],
    set: u64,
    scratch: &mut [u8],
    objects: &mut [[u64; 7]],
    count: &mut u64,
) -> u8
    ensures { ObjectsCall stream.now set scratch.old scratch.new objects.old objects.new count.old count.new result }
{
    let answer = reassemble_objects(stream, set as usize, scratch, objects);
    told(answer, count)
}
