//! Actions with a field that no reader accepts.
use action_types::{Action, Name, Pairs};
use std::alloc::{AllocError, Global};

/// A copy of the action with one field that no reader accepts; none where its kind has no such field.
pub fn spoilt_copy(alloc: Global, action: &Action) -> Result<Option<Action>, AllocError> {
    let spoilt = match action.copy()? {
        Action::Protocol(_) | Action::Txn(_) => return Ok(None),
        Action::Info(mut info) => {
            info.time = -1;
            Action::Info(info)
        }
        Action::Meta(mut meta) => {
            meta.configuration = pairs(alloc, &["a"])?;
            Action::Meta(meta)
        }
        Action::Domain(mut domain) => {
            domain.domain = Name::from_str(alloc, "")?;
            Action::Domain(domain)
        }
        Action::Remove(mut remove) => {
            match &mut remove.vector {
                None => remove.path = Name::from_str(alloc, "")?,
                Some(vector) => vector.cardinality = -1,
            }
            Action::Remove(remove)
        }
        Action::Add(mut add) => {
            match &mut add.vector {
                None => add.tags = Some(pairs(alloc, &["b", "a"])?),
                Some(vector) => vector.offset = Some(-1),
            }
            Action::Add(add)
        }
    };
    Ok(Some(spoilt))
}

/// Each name with a null.
fn pairs(alloc: Global, names: &[&str]) -> Result<Pairs, AllocError> {
    let mut pairs = Pairs::new(alloc);
    for name in names {
        pairs.push(Name::from_str(alloc, *name)?, None)?;
    }
    Ok(pairs)
}
