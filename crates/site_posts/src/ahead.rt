// What is seen of the ancestors of a checkable.
ghost use Rattle.std.specs.Prelude.{◌≡◌, ◌<◌, ℕ, length, IfOk};
ghost use Rattle.site_model.specs.PlainSite.{PlainSite, site_view};
ghost use Rattle.depend_graph.specs.Graph.{IsGraphOf};
ghost use Rattle.site_posts.specs.Books.{AreBooks, histories_of};
ghost use Rattle.site_posts.specs.Outlooks.{Ascends, IsOutlookOf, LeadsOn, shown_with};

use crate::setting::Setting;
use checkable_core::Checkable;
use post_rounds::Sight;
use site_base::{OutOfMemory, Row};
use site_model::View;
use std::alloc::Global;

/// An ancestor of a checkable in a round: what it shows all along, if nobody acts on it.
#[derive(Drop)]
pub(crate) struct Ahead {
    pub ancestor: u32,
    pub still: Option<View>,
}

/// The ancestors of a checkable, ascending, and the posts of those on which callers act. The checkables with posts ascend.
#[derive(Drop)]
pub(crate) struct Outlook {
    pub ahead: Row<Ahead>,
    pub posts: Row<u32>,
}

/// The outlook of a checkable, before a round in which callers act on these. The books are the checkables of the site, one each by
/// index.
pub(crate) fn outlook_of(
    setting: &Setting,
    books: &[Checkable],
    touched: &[u32],
    checkable: u32,
) -> Result<Outlook, OutOfMemory>
    requires graph { IsGraphOf (site_view setting.now.site.now) setting.now.graph.now }
    requires books { AreBooks (site_view setting.now.site.now) setting.now.moment books.now }
    requires touched { Ascends touched.now }
    requires checkable { checkable < length (site_view setting.now.site.now).checkables }
    ensures { IfOk result (IsOutlookOf (site_view setting.now.site.now) (histories_of books.now) touched.now checkable) }
{
    let ancestors = setting.graph.ancestors(checkable);
    let mut ahead = Vec::with_capacity(setting.alloc, ancestors.len())?;
    let mut posts = Vec::new(setting.alloc);
    for ancestor in ancestors {
        let still = still_of(books, touched, *ancestor, &mut posts)?;
        ahead.push(Ahead {
            ancestor: *ancestor,
            still,
        })?;
    }
    Ok(Outlook {
        ahead: Row::from(ahead),
        posts: Row::from(posts),
    })
}

/// What an ancestor shows all along, or else its post, which comes after these.
fn still_of(
    books: &[Checkable],
    touched: &[u32],
    ancestor: u32,
    posts: &mut Vec<u32>,
) -> Result<Option<View>, OutOfMemory>
    requires ascends { Ascends touched.now }
    requires within { ancestor < length books.now }
    ensures { (s : PlainSite) (now : ℕ) → AreBooks s now books.now → IfOk result (λ still. LeadsOn s (histories_of books.now) touched.now ancestor still posts.old.items posts.new.items) }
{
    match touched.binary_search(&ancestor) {
        Ok(post) => {
            posts.push(post as u32)?;
            Ok(None)
        }
        Err(_) => Ok(Some(books[ancestor as usize].view())),
    }
}

/// What all ancestors show, if the sights are those of the ones with posts, in their order.
pub(crate) fn shown_with(
    alloc: Global,
    ahead: &[Ahead],
    sights: &[Sight<View>],
) -> Result<Row<(u32, View)>, OutOfMemory>
    ensures { IfOk result (λ shown. shown ≡ shown_with ahead.now sights.now) }
{
    let mut shown = Vec::with_capacity(alloc, ahead.len())?;
    let mut next = 0;
    for one in ahead {
        if let Some(view) = one.still {
            shown.push((one.ancestor, view))?;
        } else if next < sights.len() {
            shown.push((one.ancestor, sights[next].glance))?;
            next += 1;
        }
    }
    Ok(Row::from(shown))
}
