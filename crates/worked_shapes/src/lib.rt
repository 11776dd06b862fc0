//! Worked examples of burned polygons, of touched cells, and of contour levels, segments and lines, with what each must
//! give. No clause rules out that a call runs out of memory, so each example also shows that it doesn't where memory is
//! ample.
#![tactic(auto)]

#[cfg(test)]
mod burning;
#[cfg(test)]
mod contours;
#[cfg(test)]
mod making;
#[cfg(test)]
mod touching;
