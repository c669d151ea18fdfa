//! What passes have in common.

ghost use Rattle.std.specs.Prelude.{◌≡◌, ◌↔◌, IfOk, IsTrue};
ghost use Rattle.node_calls.specs.Told.{passed_ref};
ghost use Rattle.packed_trace.specs.Packed.{passed_by, row_told, setting_told, setting_ref_told};

use actions::{Actions, Name};
use node_calls::PassReplyRef;
use stamp_register::Stamp;
use std::alloc::{AllocError, Global};

/// What the passes of a point under one setting have in common.
#[derive(Debug)]
pub struct Row {
    pub name: Name,
    /// None where the point isn't set.
    pub setting: Option<Setting>,
}

impl Drop for Row {
    fn drop(self) {
        let Row {
            name: _,
            setting: _,
        } = self;
    }
}

/// A setting of a point: its stamp, and what the point does.
#[derive(Debug, Drop)]
pub struct Setting {
    pub stamp: Stamp,
    pub actions: Actions,
}

/// A setting, with its actions where they stand.
#[derive(Clone, Copy)]
pub struct SettingRef<'a> {
    pub stamp: Stamp,
    pub actions: &'a Actions,
}

/// What a pass is answered by the setting of its point, if it is set, and the term that it triggered.
pub fn reply_by(setting: Option<SettingRef<'_>>, term: Option<u8>) -> PassReplyRef<'_>
    ensures { passed_ref result ≡ passed_by (setting_ref_told setting.entry) term }
{
    let Some(setting) = setting else {
        return PassReplyRef::Unset;
    };
    let stamp = setting.stamp;
    let Some(term) = term else {
        return PassReplyRef::NoTerm { stamp };
    };
    match setting.actions.term(term) {
        Some(found) => PassReplyRef::Act {
            term,
            stamp,
            task: &found.task,
        },
        None => PassReplyRef::NoTerm { stamp },
    }
}

impl SettingRef<'_> {
    // A setting of its own, which shares the actions with this one.
    fn copied(self, alloc: Global) -> Result<Setting, AllocError>
        ensures { IfOk result (λ copy. (copy.stamp ≡ self.entry.stamp)
            × (copy.actions ≡ self.entry.actions.now)) }
    {
        Ok(Setting {
            stamp: self.stamp,
            actions: self.actions.copied(alloc)?,
        })
    }
}

impl Row {
    /// The setting, with its actions where they stand.
    pub fn setting(&self) -> Option<SettingRef<'_>>
        ensures { setting_ref_told result ≡ setting_told self.now.setting }
    {
        let setting = self.setting.as_ref()?;
        Some(SettingRef {
            stamp: setting.stamp,
            actions: &setting.actions,
        })
    }

    /// The row of the passes of a point under a setting. The only error is out of memory.
    pub(crate) fn of(
        alloc: Global,
        name: &Name,
        setting: Option<SettingRef<'_>>,
    ) -> Result<Row, AllocError>
        ensures { IfOk result (λ row. row_told row
            ≡ record { name = name.now; setting = setting_ref_told setting.entry }) }
    {
        let name = name.copied(alloc)?;
        let setting = match setting {
            Some(setting) => Some(setting.copied(alloc)?),
            None => None,
        };
        Ok(Row { name, setting })
    }

    /// Whether the row is that of the passes of a point under a setting.
    #[inline(always)]
    pub(crate) fn is_of(&self, name: &Name, setting: Option<SettingRef<'_>>) -> bool
        ensures { IsTrue result ↔ (row_told self.now
            ≡ record { name = name.now; setting = setting_ref_told setting.entry }) }
    {
        if self.name != *name {
            return false;
        }
        match &self.setting {
            Some(own) => match setting {
                Some(setting) => own.is_same(setting),
                None => false,
            },
            None => setting.is_none(),
        }
    }
}

impl Setting {
    #[inline(always)]
    fn is_same(&self, other: SettingRef<'_>) -> bool
        ensures { IsTrue result ↔ ((self.now.stamp ≡ other.entry.stamp)
            × (self.now.actions ≡ other.entry.actions.now)) }
    {
        self.stamp == other.stamp && self.actions.text() == other.actions.text()
    }
}
