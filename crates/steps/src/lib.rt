// The step table: what a step on a triplet makes of what is known of x, y and z.
#![tactic(auto)]

pub mod rest;
pub mod step;

ghost use Rattle.std.specs.Prelude.{◌≡◌, ◌≤◌, ◌<◌};
ghost use Rattle.steps.specs.Table.{entry};

// 105 numbers for kind 0, then 105 for kind 1: the pattern after a step at each pattern, or 255 for contradiction.
static AFTER: [u8; 210] = [
    // kind 0, x false, y false
    255, 255, 255, 255, 255, 255, 255,
    // kind 0, x false, y true
    7, 255, 7, 255, 255, 7, 7,
    // kind 0, x false, y x
    255, 255, 255, 255, 255, 255, 255,
    // kind 0, x false, y not x
    7, 255, 7, 255, 255, 7, 7,
    // kind 0, x false, y own
    7, 255, 7, 255, 255, 7, 7, // 34: so y is true and z false
    // kind 0, x true, y false
    35, 36, 36, 35, 35, 36, 41,
    // kind 0, x true, y true
    255, 43, 43, 255, 43, 255, 43,
    // kind 0, x true, y x
    255, 43, 43, 255, 43, 255, 43,
    // kind 0, x true, y not x
    35, 36, 36, 35, 35, 36, 41,
    // kind 0, x true, y own
    35, 64, 64, 35, 67, 36, 69,
    // kind 0, x own, y false
    35, 36, 36, 35, 35, 36, 41,
    // kind 0, x own, y true
    7, 43, 79, 255, 43, 7, 79,
    // kind 0, x own, y x
    255, 43, 43, 255, 43, 255, 43,
    // kind 0, x own, y not x
    91, 36, 93, 35, 35, 93, 97,
    // kind 0, x own, y own
    91, 64, 100, 35, 67, // 102: z is y, so x is true
    93, // 103: z is not y, so it is x
    104, // 104: nothing is known
    // kind 1, x false, y false
    255, 1, 255, 1, 255, 1, 1,
    // kind 1, x false, y true
    7, 255, 7, 255, 255, 7, 7,
    // kind 1, x false, y x
    255, 1, 255, 1, 255, 1, 1,
    // kind 1, x false, y not x
    7, 255, 7, 255, 255, 7, 7,
    // kind 1, x false, y own
    7, 1, 7, 1, 255, 33, 33,
    // kind 1, x true, y false
    35, 255, 255, 35, 35, 255, 35,
    // kind 1, x true, y true
    255, 43, 43, 255, 43, 255, 43,
    // kind 1, x true, y x
    255, 43, 43, 255, 43, 255, 43,
    // kind 1, x true, y not x
    35, 255, 255, 35, 35, 255, 35,
    // kind 1, x true, y own
    35, 43, 43, 35, 67, 255, 67,
    // kind 1, x own, y false
    35, 1, 255, 73, 35, 1, 73,
    // kind 1, x own, y true
    7, 43, 79, 255, 43, 7, 79,
    // kind 1, x own, y x
    255, 85, 43, 1, 43, 1, 85, // 90: y is x, so z is true
    // kind 1, x own, y not x
    91, 255, 7, 35, 35, 7, 91,
    // kind 1, x own, y own
    91, 85, 79, 73, 67, 33, 104,
];

// The pattern after a step on a triplet of this kind.
pub fn after(kind: usize, pattern: usize) -> u8
    requires { (kind ≤ 1) × (pattern < 105) }
    ensures { result ≡ entry kind pattern }
{
    AFTER[105 * kind + pattern]
}
