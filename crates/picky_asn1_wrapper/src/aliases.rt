// The old names of the tag wrappers, one for each number.
use crate::explicit::ExplicitContextTag;
use crate::implicit::ImplicitContextTag;

/// An explicit tag with the context number 0.
pub type ExplicitContextTag0<T> = ExplicitContextTag<0, T>;

/// An explicit tag with the context number 1.
pub type ExplicitContextTag1<T> = ExplicitContextTag<1, T>;

/// An explicit tag with the context number 2.
pub type ExplicitContextTag2<T> = ExplicitContextTag<2, T>;

/// An explicit tag with the context number 3.
pub type ExplicitContextTag3<T> = ExplicitContextTag<3, T>;

/// An explicit tag with the context number 4.
pub type ExplicitContextTag4<T> = ExplicitContextTag<4, T>;

/// An explicit tag with the context number 5.
pub type ExplicitContextTag5<T> = ExplicitContextTag<5, T>;

/// An explicit tag with the context number 6.
pub type ExplicitContextTag6<T> = ExplicitContextTag<6, T>;

/// An explicit tag with the context number 7.
pub type ExplicitContextTag7<T> = ExplicitContextTag<7, T>;

/// An explicit tag with the context number 8.
pub type ExplicitContextTag8<T> = ExplicitContextTag<8, T>;

/// An explicit tag with the context number 9.
pub type ExplicitContextTag9<T> = ExplicitContextTag<9, T>;

/// An explicit tag with the context number 10.
pub type ExplicitContextTag10<T> = ExplicitContextTag<10, T>;

/// An explicit tag with the context number 11.
pub type ExplicitContextTag11<T> = ExplicitContextTag<11, T>;

/// An explicit tag with the context number 12.
pub type ExplicitContextTag12<T> = ExplicitContextTag<12, T>;

/// An explicit tag with the context number 13.
pub type ExplicitContextTag13<T> = ExplicitContextTag<13, T>;

/// An explicit tag with the context number 14.
pub type ExplicitContextTag14<T> = ExplicitContextTag<14, T>;

/// An explicit tag with the context number 15.
pub type ExplicitContextTag15<T> = ExplicitContextTag<15, T>;

/// An implicit tag with the context number 0.
pub type ImplicitContextTag0<T> = ImplicitContextTag<0, T>;

/// An implicit tag with the context number 1.
pub type ImplicitContextTag1<T> = ImplicitContextTag<1, T>;

/// An implicit tag with the context number 2.
pub type ImplicitContextTag2<T> = ImplicitContextTag<2, T>;

/// An implicit tag with the context number 3.
pub type ImplicitContextTag3<T> = ImplicitContextTag<3, T>;

/// An implicit tag with the context number 4.
pub type ImplicitContextTag4<T> = ImplicitContextTag<4, T>;

/// An implicit tag with the context number 5.
pub type ImplicitContextTag5<T> = ImplicitContextTag<5, T>;

/// An implicit tag with the context number 6.
pub type ImplicitContextTag6<T> = ImplicitContextTag<6, T>;

/// An implicit tag with the context number 7.
pub type ImplicitContextTag7<T> = ImplicitContextTag<7, T>;

/// An implicit tag with the context number 8.
pub type ImplicitContextTag8<T> = ImplicitContextTag<8, T>;

/// An implicit tag with the context number 9.
pub type ImplicitContextTag9<T> = ImplicitContextTag<9, T>;

/// An implicit tag with the context number 10.
pub type ImplicitContextTag10<T> = ImplicitContextTag<10, T>;

/// An implicit tag with the context number 11.
pub type ImplicitContextTag11<T> = ImplicitContextTag<11, T>;

/// An implicit tag with the context number 12.
pub type ImplicitContextTag12<T> = ImplicitContextTag<12, T>;

/// An implicit tag with the context number 13.
pub type ImplicitContextTag13<T> = ImplicitContextTag<13, T>;

/// An implicit tag with the context number 14.
pub type ImplicitContextTag14<T> = ImplicitContextTag<14, T>;

/// An implicit tag with the context number 15.
pub type ImplicitContextTag15<T> = ImplicitContextTag<15, T>;
