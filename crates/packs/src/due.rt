// Which field may stand next in a pack, and what a field is where it stands.
ghost use Rattle.std.specs.Prelude.{◌≡◌, eqb};
ghost use Rattle.ground.specs.Choice.{choose};
ghost use Rattle.packs.specs.Pack.{role_of};

// The tags of a line's fields.
const ID_TAG: u8 = 1;

const RULE_TAG: u8 = 2;

const VARIANT_TAG: u8 = 3;

const TEXT_TAG: u8 = 4;

// What may stand next.
#[derive(Clone, Copy)]
pub enum Due {
    Id,
    RuleOrVariant,
    Variant,
    Text,
    VariantOrEnd,
}

// What a field is where it stands.
#[derive(Clone, Copy)]
pub enum Role {
    Wrong,
    Id,
    Rule,
    Variant,
    Text,
}

// The role that the only tag wanted has; any other tag is wrong.
fn only(tag: u8, wanted: u8, role: Role) -> Role
    ensures { result ≡ choose (eqb tag wanted) role Role.Wrong }
{
    if tag == wanted {
        return role;
    }
    Role::Wrong
}

// The role of a field with this tag.
pub fn role_of(due: Due, tag: u8) -> Role
    ensures { result ≡ role_of due tag }
{
    match due {
        Due::Id => only(tag, ID_TAG, Role::Id),
        Due::RuleOrVariant => {
            if tag == RULE_TAG {
                return Role::Rule;
            }
            only(tag, VARIANT_TAG, Role::Variant)
        }
        Due::Variant => only(tag, VARIANT_TAG, Role::Variant),
        Due::Text => only(tag, TEXT_TAG, Role::Text),
        Due::VariantOrEnd => only(tag, VARIANT_TAG, Role::Variant),
    }
}
